// That waiting ends: definitions and theorems, no code.
#![tactic(auto)]
