// The found list (01, "Tables"; waypoint records have 48 bytes by 02, No. 5): the nodes back from the last one over their parents, written from its end.
#![tactic(auto)]

ghost use Rattle.std.specs.Prelude.{◌≡◌, ◌*◌, ◌≤◌, length, drop};
ghost use Rattle.std.specs.Option.{option_to_list};
ghost use mathlib.Core.List.{[], ◌∷◌, ◌++◌, reverse_aux};
ghost use Rattle.rooms.specs.Lists.{walk, list_bytes, Listed};

use rooms::{Feet, Label, get_node};
use writes::put_waypoint;

// How many points the list back from node k has: over at most n nodes.
fn span(nodes: &[u8], n: usize, k: usize) -> usize
    ensures { (result ≡ length (walk n nodes.now n k)) × (result ≤ n) }
{
    let mut at = k;
    for m in 0..n {
        if n <= at {
            return m;
        }
        let node = get_node(nodes, at);
        at = node.parent as usize;
    }
    n
}

// The m points of the list back from node k, written from the last to the first.
fn back(nodes: &[u8], n: usize, k: usize, m: usize, out: &mut [u8])
    requires { (m ≡ length (walk n nodes.now n k)) × (48 * m ≤ length out.old) }
    ensures { out.new ≡ list_bytes (reverse_aux (walk n nodes.now n k) []) ++ drop (48 * m) out.old }
{
    let mut at = k;
    for j in (0..m).rev() {
        let node = get_node(nodes, at);
        put_waypoint(out, j, node.feet, node.label);
        at = node.parent as usize;
    }
}

// The list of n nodes that ends at node k, and behind it the point that an edge leads to from there, if any: written where the output has room for it. Its
// number of points.
fn list(nodes: &[u8], n: usize, k: usize, last: Option<(Feet, Label)>, out: &mut [u8]) -> usize
    ensures { Listed nodes.now n k (option_to_list last) result out.old out.new }
{
    if nodes.len() / 64 < n {
        return 0;
    }
    let m = span(nodes, n, k);
    let count = m + usize::from(last.is_some());
    if out.len() / 48 < count {
        return count;
    }
    if let Some((feet, label)) = last {
        put_waypoint(out, m, feet, label);
    }
    back(nodes, n, k, m, out);
    count
}

// The list of n nodes that ends at node k, written where the output has room for it; its number of points.
pub fn list_at(nodes: &[u8], n: usize, k: usize, out: &mut [u8]) -> usize
    ensures { Listed nodes.now n k [] result out.old out.new }
{
    list(nodes, n, k, None, out)
}

// The list that ends by an edge from node k to the goal.
pub fn list_by(nodes: &[u8], n: usize, k: usize, goal: Feet, label: Label, out: &mut [u8]) -> usize
    ensures { Listed nodes.now n k ((goal, label) ∷ []) result out.old out.new }
{
    list(nodes, n, k, Some((goal, label)), out)
}
