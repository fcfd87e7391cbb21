// The nodes that a search retained, in the index once more, and what is found of them there. Of the index room a search was lent x bytes.
use crate::{sheet, sum};
use rooms::Feet;

// How many of n nodes are entered into the first x bytes of a room; none where it has not so many.
fn extend_front(room: &mut [u8], x: usize, nodes: &[u8], n: usize) -> usize {
    match room.get_mut(..x) {
        Some(part) => index::extend(part, nodes, 0, n),
        None => 0,
    }
}

// How many of n nodes are entered.
pub(crate) fn entered(index: &mut [u8; 8208], x: usize, nodes: &[u8; 32896], n: usize) -> usize {
    extend_front(index, x, nodes, n)
}

// Where each of n nodes is found, if m of them were entered.
fn with_nodes(d: u64, index: &[u8], nodes: &[u8], m: usize, n: usize) -> u64 {
    let mut sum = d;
    for k in 0..n {
        let j = index::find(index, nodes, m, n, rooms::get_feet(nodes, k));
        sum = sum::with(sum, j as u64);
    }
    sum
}

// Where the goal is found, and each node; each once more if only half of the m were entered, so that the others are scanned; then every byte of the room.
pub(crate) fn with_found(
    d: u64,
    index: &[u8; 8208],
    x: usize,
    nodes: &[u8; 32896],
    m: usize,
    n: usize,
    goal: Feet,
) -> u64 {
    let lent = sheet::front(index, x);
    let j = index::find(lent, nodes, m, n, goal);
    let e = sum::with(sum::with(d, m as u64), j as u64);
    let f = with_nodes(with_nodes(e, lent, nodes, m, n), lent, nodes, m / 2, n);
    sum::with_words(f, index)
}
