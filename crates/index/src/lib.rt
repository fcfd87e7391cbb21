// The index of points: which node is at a point, found by a hash of the point, as a scan of the nodes would find it. It carries 02, No. 7: "Keep an index in a
// room of its own, u32 slots, .. addressed by a hash of the three 64-bit words of a point".
//
// A slot has 4 bytes: 0 where it is free, else a node's number plus 1. A node stands in the first slot that was free, from its point's own slot on, when it
// was entered. So whoever looks for a point goes from the point's own slot on, until a node there is at the point or a slot is free. Nodes are entered in the
// order of their numbers, before each expansion; those that an expansion retains are not entered yet, and are scanned. Every public function answers for
// every room. `size` says which rooms are refused. That a point has no node is told by the number of nodes and not by an Option, as `looked_up` counts.
#![tactic(auto)]

mod size;

ghost use Rattle.std.specs.Prelude.{◌≡◌, ◌-◌, ◌<◌, length};
ghost use Rattle.rooms.specs.Records.{node_at};
ghost use Rattle.index.specs.Index.{stir, mix, home, next_slot, probed, looked_up, free_for, extend_by, extended};

use equal_points::{canonical_word, same_point};
use rooms::{Feet, get_feet};
pub use size::wrong_size;

// More nodes than a room can tell apart: a parent's number is a u32.
const NODES: usize = 4294967296;

// A hash stirred, by shifts and sums that wrap.
#[tactic(auto, unfolding(crate::specs::Index::stir))]
fn stir(h: u64) -> u64
    ensures { result ≡ stir h }
{
    let d = std::num::wrapping_add_u64(h, h >> 19);
    std::num::wrapping_add_u64(d, d << 5)
}

// One more word mixed into a hash.
#[tactic(auto, unfolding(crate::specs::Index::mix))]
fn mix(h: u64, w: u64) -> u64
    ensures { result ≡ mix h w }
{
    stir(std::num::wrapping_add_u64(h, w))
}

// A point's own slot, of n, by the hash of its three words, with -0.0 as 0. Stirred only once a word, the points of some grids meet in a few slots. The mask
// gives what a remainder gives for a power of two of slots, and is quicker than a division.
fn home(n: usize, p: Feet) -> usize
    requires { 0 < n }
    ensures { result ≡ home n p }
{
    let x = mix(0, canonical_word(p.x));
    let y = mix(x, canonical_word(p.y));
    let z = mix(y, canonical_word(p.z));
    let h = stir(stir(z));
    (std::num::wrapping_add_u64(h, h >> 34) & ((n - 1) as u64)) as usize
}

// The slot behind one of n: behind the last the first.
#[tactic(auto, unfolding(crate::specs::Index::next_slot))]
fn next_slot(n: usize, s: usize) -> usize
    requires { s < n }
    ensures { result ≡ next_slot n s }
{
    if s + 1 < n { s + 1 } else { 0 }
}

// Of an index of the first m nodes: the first of them at a point, or m.
fn probe(index: &[u8], nodes: &[u8], m: usize, q: Feet) -> usize
    ensures { result ≡ probed index.now nodes.now m q }
{
    let n = index.len() / 4;
    if n == 0 {
        return m;
    }
    let mut s = home(n, q);
    // a loop `for` over the turns was tried, and is slower by a fifth
    let mut left = n;
    while 0 < left {
        let e = fields::u32_at(index, 4 * s) as usize;
        if (e == 0) | (m < e) {
            return m;
        }
        let k = e - 1;
        if same_point(get_feet(nodes, k), q) {
            return k;
        }
        s = next_slot(n, s);
        left -= 1;
    }
    m
}

// Of an index of the first m nodes: the first of n nodes at a point, or n. Those past the first m are scanned.
pub fn find(index: &[u8], nodes: &[u8], m: usize, n: usize, q: Feet) -> usize
    ensures { result ≡ looked_up index.now nodes.now m n q }
{
    let k = probe(index, nodes, m, q);
    if k < m {
        return k;
    }
    scans::seek(nodes, m, n, q)
}

// The first free slot from a point's own on, or the number of slots where none is free, as `free_for` counts. It goes as `probe` does, and asks no node.
fn free_slot(index: &[u8], q: Feet) -> usize
    ensures { result ≡ free_for index.now q }
{
    let n = index.len() / 4;
    if n == 0 {
        return n;
    }
    let mut s = home(n, q);
    for turn in 0..n {
        if fields::u32_at(index, 4 * s) == 0 {
            return s;
        }
        s = next_slot(n, s);
    }
    n
}

// Where node k is, read at its offset: for a room whose length is judged once.
#[tactic(auto, unfolding(rooms::specs::Records::node_at))]
fn near_feet(nodes: &[u8], k: usize) -> Feet
    requires { k < 4294967296 }
    ensures { result ≡ (node_at nodes.now k).feet }
{
    let at = 64 * k;
    let x = fields::u64_at(nodes, at);
    let y = fields::u64_at(nodes, at + 8);
    let z = fields::u64_at(nodes, at + 16);
    Feet { x, y, z }
}

// Enters nodes as `extend` does, in a room that has n of them: the length is judged once, so that the loop need not. What is left is as `extend` would leave it.
fn enter(index: &mut [u8], nodes: &[u8], from: usize, n: usize) -> usize
    ensures { (length index.new ≡ length index.old) × (extended index.old nodes.now from n ≡ extend_by (n - result) index.new nodes.now result) }
{
    let border = n % NODES;
    if (border < from) | (nodes.len() < 64 * border) {
        return from;
    }
    for k in from..border {
        let s = free_slot(index, near_feet(nodes, k));
        if index.len() / 4 <= s {
            return k;
        }
        stores::put_u32(index, 4 * s, ((k + 1) % NODES) as u32);
    }
    border
}

// Enters the nodes `from`, `from` + 1, .. below n while a slot is free; answers the first one that is not entered.
pub fn extend(index: &mut [u8], nodes: &[u8], from: usize, n: usize) -> usize
    ensures { (result ≡ (extended index.old nodes.now from n).1) × (index.new ≡ (extended index.old nodes.now from n).0) }
{
    let first = enter(index, nodes, from, n);
    if n <= first {
        return first;
    }
    for k in first..n {
        let s = free_slot(index, get_feet(nodes, k));
        if index.len() / 4 <= s {
            return k;
        }
        stores::put_u32(index, 4 * s, ((k + 1) % NODES) as u32);
    }
    n
}
