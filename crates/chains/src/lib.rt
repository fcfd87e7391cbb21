// Whether the parents of a search's nodes lead back to its start (02, No. 10: "each parent is retained and closed, each parent chain ends at node 0").
//
// `chains_end` answers for every room and every number of nodes. Each node is passed once: a chain is followed up to a node from which the start is known to be
// reached, and its nodes are marked then. The marks are the function's own; no room is written.
#![tactic(auto)]

ghost use Rattle.std.specs.Prelude.{◌≡◌, true, ◌≤◌, ◌<◌, IfSome};
ghost use Rattle.rooms.specs.Records.{node_at};
ghost use Rattle.chains.specs.Chains.{good_parent, parent_back, each_below, ends_at_start, good_chains};
ghost use Rattle.chains.specs.Marks.{ParentsInside, MarksSound, Climbed, Reaches, ChainMarked, ParentsLooked};

use rooms::{NOBODY, get_node};

// The most nodes that a search can have.
const MOST: usize = 4096;

// Whether node k's parent is as 02 says.
#[tactic(auto, unfolding(crate::specs::Chains::good_parent))]
fn is_linked(nodes: &[u8], n: usize, k: usize) -> bool
    ensures { result ≡ good_parent nodes.now n k }
{
    let parent = get_node(nodes, k).parent;
    if k == 0 {
        return parent == NOBODY;
    }
    let at = parent as usize;
    if n <= at {
        return false;
    }
    get_node(nodes, at).closed == 1
}

fn all_linked(nodes: &[u8], n: usize) -> bool
    ensures { result ≡ each_below (good_parent nodes.now n) n }
{
    (0..n).all(|k| is_linked(nodes, n, k))
}

// Node k's parent, where it is one of n nodes and closed. For a room whose length is judged once, as the words are read at offsets.
fn near_parent(nodes: &[u8], n: usize, k: usize) -> Option<usize>
    requires { (k < n) × (n ≤ 4096) }
    ensures { IfSome result (λ p. (p < n) × (p ≡ (node_at nodes.now k).parent) × ((node_at nodes.now p).closed ≡ 1)) }
{
    let parent = fields::u32_at(nodes, 64 * k + 56) as usize;
    if n <= parent {
        return None;
    }
    let closed = fields::u32_at(nodes, 64 * parent + 60);
    if closed != 1 {
        return None;
    }
    Some(parent)
}

// A first look at n nodes. Some: each has a good parent, and, where it is true, one that is marked before it, as most often. None says nothing.
fn look(nodes: &[u8], done: &mut [bool; 4096], n: usize) -> Option<bool>
    requires { (n ≤ 4096) × MarksSound nodes.now done.old }
    ensures { ParentsLooked nodes.now n done.new result }
{
    if nodes.len() < 64 * n {
        return None;
    }
    if !is_linked(nodes, n, 0) {
        return None;
    }
    done[0] = true;
    let mut all = true;
    for k in 1..n {
        let parent = near_parent(nodes, n, k)?;
        let mark = done[parent];
        done[k] = mark;
        all = all & mark;
    }
    Some(all)
}

// Whether each parent is good, where a look has been taken.
fn linked_by(nodes: &[u8], n: usize, seen: Option<bool>) -> bool
    requires { IfSome seen (λ all. each_below (good_parent nodes.now n) n ≡ true) }
    ensures { result ≡ each_below (good_parent nodes.now n) n }
{
    match seen {
        Some(_) => true,
        None => all_linked(nodes, n),
    }
}

// One parent back from node k; from node 0 there is none.
#[tactic(auto, unfolding(crate::specs::Chains::parent_back))]
fn up(nodes: &[u8], k: usize) -> usize
    ensures { result ≡ parent_back nodes.now k }
{
    if k == 0 {
        return 0;
    }
    get_node(nodes, k).parent as usize
}

// How many parents back from node k node 0 or a marked node stands; none where neither does on n parents back.
fn climb(nodes: &[u8], done: &[bool; 4096], n: usize, k: usize) -> Option<usize>
    requires { ParentsInside nodes.now n × (k < n) × (n ≤ 4096) }
    ensures { Climbed nodes.now done.now n k result }
{
    let mut at = k;
    for m in 0..n + 1 {
        if at == 0 {
            return Some(m);
        }
        if done[at] {
            return Some(m);
        }
        at = up(nodes, at);
    }
    None
}

// The first m nodes back from node k marked.
fn mark(nodes: &[u8], done: &mut [bool; 4096], n: usize, k: usize, m: usize)
    requires { ParentsInside nodes.now n × (k < n) × (n ≤ 4096) × MarksSound nodes.now done.old × Reaches nodes.now k }
    ensures { MarksSound nodes.now done.new }
{
    let mut at = k;
    for i in 0..m {
        done[at] = true;
        at = up(nodes, at);
    }
}

// Whether node k's chain ends; if so, its nodes are marked. Most often its parent is marked already.
fn settle(nodes: &[u8], done: &mut [bool; 4096], n: usize, k: usize) -> bool
    requires { ParentsInside nodes.now n × (k < n) × (n ≤ 4096) × MarksSound nodes.now done.old }
    ensures { ChainMarked nodes.now n k done.new result }
{
    let parent = up(nodes, k);
    if done[parent] {
        done[k] = true;
        return true;
    }
    let Some(m) = climb(nodes, done, n, k) else {
        return false;
    };
    mark(nodes, done, n, k, m);
    true
}

// Whether the parents of n nodes are as 02 says, and each chain of them ends at node 0.
pub fn chains_end(nodes: &[u8], n: usize) -> bool
    ensures { result ≡ good_chains nodes.now n }
{
    if MOST < n {
        return false;
    }
    let mut done = [false; 4096];
    let seen = look(nodes, &mut done, n);
    if seen.unwrap_or(false) {
        return true;
    }
    if !linked_by(nodes, n, seen) {
        return false;
    }
    for k in 0..n {
        if !settle(nodes, &mut done, n, k) {
            return false;
        }
    }
    true
}
