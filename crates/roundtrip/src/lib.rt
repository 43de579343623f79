// Writing and then reading gives the same lists. Theorems only.
#![tactic(auto)]
