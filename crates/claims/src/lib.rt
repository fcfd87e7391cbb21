// What the public search's contract implies (`specs/Claims.antt`; 01, "Contracts"; the budget claims), what the walk-back's reasons say of a pair of a list
// (`specs/Reasons.antt`), and what the length of a level way is (`specs/Level.antt`; 02, No. 2): theorems only. No code.
#![tactic(auto)]
