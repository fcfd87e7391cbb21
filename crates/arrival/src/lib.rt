// At a point that is the same as the goal the connector passes (01, "Search": "a start equal to the goal needs none"; `specs/Arrival.antt`), the sign of a zero
// changes no edge, no step and no connector (`specs/Signs.antt`), no box top is -0.0 (`proofs/Tops.antt`), and lifts compare as numbers (01, Modules 5;
// `specs/Lifts.antt`): theorems only. No code.
#![tactic(auto)]
