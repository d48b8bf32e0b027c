// Theorems on the face: demand 3 as a C program meets it, and that each promise allows one outcome.
#![tactic(auto)]
