// Promises about the manager as a whole: theorems only, no functions.
#![tactic(auto)]
