// What the contracts of a search that is continued come to (02, No. 10): theorems only. No code.
#![tactic(auto)]
