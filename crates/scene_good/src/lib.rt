// A read scene's tables are never a BadWorld (01, numbers 3 and 7; `proofs/Good.antt`, `never_bad`), and a first box is the sum of the counts before it
// (`first_boxes_are_sums`): theorems only. No code.
#![tactic(auto)]
