// 01's marked examples, one table under one proved claim (`specs/Marked.antt`): theorems only. No code.
#![tactic(auto)]
