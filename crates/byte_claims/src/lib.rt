// What the answers of the search (`specs/Bytes.antt`), and 117 of the walk-back (`specs/Reasons.antt`), mean for the bytes that a call is handed and leaves: theorems
// only. No code.
#![tactic(auto)]
