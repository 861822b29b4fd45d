// The bare machine of demand 3 and what it shows of every answer, read back from what was lent; when the calls refuse, and what they tell C: definitions and theorems alone, in specs/.
#![tactic(auto)]
