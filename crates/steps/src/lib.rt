// Graph steps (01, The graph, "Graph step"): the columns around a point, in order. The sides that diagonals need are `sides`.
//
// An expansion goes through the columns 0 to 8 with its side answers in a struct by value. Where a column is looked at, it takes the heights of the column's
// centre in the point's band one after the other (`heights::next_height`), asks for the edge to each (`edges::edge`), and notes for the column whether an
// edge does not climb. The laws of `specs/Expansion.antt` say that the edges so met are the graph steps of the point, in order;
// `specs/Bounds.antt` says how many there can be.
#![tactic(auto)]

pub mod columns;

pub use columns::{Centre, NEIGHBOURS, Offset, band_of, column_centre};
