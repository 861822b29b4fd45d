// Laws alone, and no code: specs/ has them.
#![tactic(auto)]
