// Theorems alone, and no code: what the reader accepts and what it refuses. specs/ has them.
#![tactic(auto)]
