// The twelve of 01: one table and one proof over it, in specs/.
#![tactic(auto)]
