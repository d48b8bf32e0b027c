// Theorems on the definitions alone: the row policy, determinacy, and document 01's examples.
#![tactic(auto)]
