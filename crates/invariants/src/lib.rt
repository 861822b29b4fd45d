// What stays true of the jobs while a plan runs: theorems alone, in specs/.
#![tactic(auto)]
