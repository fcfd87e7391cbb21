// When a record is good (01, "Scenes and walkprint"): the order of the kinds, each kind's rule, and the whole record.
ghost use Rattle.std.specs.Prelude.{◌≡◌};
ghost use Rattle.scene_records.specs.Layout.{number_of};
ghost use Rattle.scene_rules.specs.Rules.{in_order, shape_rule, rule, good};

use crate::{Counts, zeros};
use scene_records::{byte_at, cell_count, number_of, window_at};
use world::{Aabb, point_at, size_above};

// Whether a kind may come after the last one, of which 0 is none. A kind is the record's byte and no enum: the order goes by its number, and 01 names
// the kinds 1 to 6 by it.
#[tactic(auto, unfolding(crate::specs::Rules::in_order))]
fn in_order(last: u8, kind: u8) -> bool
    ensures { result ≡ in_order last kind }
{
    if last < 3 {
        return kind == last + 1;
    }
    (4 <= kind) & (last <= kind) & (kind <= 6)
}

// Kind 4: whether its box is good, and its shape has not fallen and has room for one box more. The next shape is a usize: behind the last u32 there is one.
#[tactic(auto, using(crate::specs::Laws::shape_is), unfolding(scene_records::specs::Layout::box_of, world::specs::Space::box_at, world::specs::Space::point_at))]
fn shape_good(counts: Counts, n: u32, bytes: &[u8]) -> bool
    requires { n ≡ number_of bytes.now }
    ensures { result ≡ shape_rule counts bytes.now }
{
    let next = (n as usize) + 1;
    let shapes = counts.shapes as usize;
    let room = (next != shapes) | (counts.last < 16);
    let good = tables::box_good(Aabb {
        min: point_at(bytes, 8),
        max: point_at(bytes, 32),
    });
    (n <= 255) & (shapes <= next) & room & (counts.boxes < 256) & good
}

// Whether the record keeps the rule of its kind.
#[tactic(auto, unfolding(crate::specs::Rules::rule, crate::specs::Rules::window_rule, crate::specs::Rules::state_rule, scene_records::specs::Layout::by_kind))]
fn rule_kept(counts: Counts, bytes: &[u8], kind: u8) -> bool
    ensures { result ≡ rule kind counts bytes.now }
{
    let n = number_of(bytes);
    match kind {
        1 => n <= 512,
        3 => {
            let w = window_at(bytes, 8);
            let above = size_above(w);
            let cells = cell_count(w);
            (n == 0) & !above & (cells <= 4096)
        }
        4 => shape_good(counts, n, bytes),
        5 => {
            let permission = byte_at(bytes, 8);
            (n == counts.states) & (n <= 255) & (permission <= 7)
        }
        _ => n == 0,
    }
}

// Whether the record is good.
#[tactic(auto, unfolding(crate::specs::Rules::good, scene_records::specs::Layout::three_zeros))]
pub fn good_record(last: u8, counts: Counts, bytes: &[u8]) -> bool
    ensures { result ≡ good last counts bytes.now }
{
    if bytes.len() != 64 {
        return false;
    }
    let kind = byte_at(bytes, 0);
    let ordered = in_order(last, kind);
    let padded = (byte_at(bytes, 1) == 0) & (byte_at(bytes, 2) == 0) & (byte_at(bytes, 3) == 0);
    let rest = zeros::zeros_from(bytes, zeros::unused_from(kind));
    ordered & padded & rest & rule_kept(counts, bytes, kind)
}
