// Moves: how a body moves by a difference in height, and what an edge and its check answer (01, The graph, "Edge"; 02, No. 3).
//
// `answer` has the kinds of movement, the waypoint that carries one, and the reasons why there is none; `lift` says which of them a rise or a fall takes, and how far the body is lifted.
#![tactic(auto)]

pub mod answer;
mod lift;

pub use answer::{Movement, Reason, Waypoint};
pub use lift::{moving, step_height};
