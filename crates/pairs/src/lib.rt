// One pair of a list that is walked back: whether it is the graph's, a graph step or at the last pair the connector (01, The graph), and why not (02, No. 3).
//
// The columns and their heights are gone through as an expansion goes through them, since diagonals wait for the answers of the sides; the first edge that
// leads to the record ends it.
#![tactic(auto)]

ghost use Rattle.std.specs.Prelude.{◌≡◌, []};
ghost use Rattle.exploration.specs.Lists.{has};
ghost use Rattle.exploration.specs.WalkBack.{joined};
ghost use Rattle.world.specs.Space.{space_of};
ghost use Rattle.sides.specs.Sides.{looked_by};
ghost use Rattle.steps.specs.Columns.{band_of, steps_from, column_if};
ghost use Rattle.steps.specs.Expansion.{sides_before};
ghost use Rattle.steps.specs.Graph.{graph};
ghost use Rattle.listed.specs.Listed.{entry};
ghost use Rattle.listed.specs.Compared.{leads_to};
ghost use Rattle.pairs.specs.Pairs.{pair_number, pair_fault};
ghost use Rattle.pairs.specs.Laws.{Noted};

use heights::{Band, Shaft};
use moves::Reason;
use rooms::{Feet, WaypointRecord};
use sides::Sides;
use world::{Point, Query};

// Why a pair is none of the graph's: it has no edge; its edge is no graph step nor, at the last pair, a connector; or the record's movement, lift or door is not
// its edge's.
#[derive(Clone, Copy)]
pub enum PairFault {
    NoEdge(Reason),
    NotAStep,
    WrongLabel,
}

// The number of a pair's reason: that of its edge's, 117 or 118.
impl From<PairFault> for u64 {
    ghost from_gives = { λ fault n. n ≡ pair_number fault };

    fn from(fault: PairFault) -> u64 {
        match fault {
            PairFault::NoEdge(why) => u64::from(why),
            PairFault::NotAStep => 117,
            PairFault::WrongLabel => 118,
        }
    }
}

// What column n says: None where an edge of it leads to the record, and otherwise whether one of its edges is level. A column that is not looked at has no edges.
fn look_column(
    query: Query,
    from: Point,
    band: Band,
    looked: bool,
    n: usize,
    v: WaypointRecord,
) -> Option<bool>
    requires band_value { let t = query in band ≡ band_of t.request t.body from }
    requires looked_value { let t = query in looked ≡ looked_by (sides_before (space_of t.world) t.request t.body from n) n }
    ensures { let t = query.entry in Noted v from (column_if (space_of t.world) t.request t.body from n) result [] }
{
    let mut level = false;
    if !looked {
        return Some(level);
    }
    let centre = steps::column_centre(from, n);
    let shaft = Shaft {
        band,
        x: centre.x,
        z: centre.z,
    };
    let mut after = None;
    while let Some(y) = heights::next_height(query.world, shaft, after) {
        let to = Point {
            x: centre.x,
            y,
            z: centre.z,
        };
        if let Some(step) = edges::edge(query, from, to) {
            if listed::leads_to(v, step) {
                return None;
            }
            level |= sides::is_level(from, step.feet);
        }
        after = Some(y);
    }
    Some(level)
}

// Whether a graph step leads from a point to a record.
fn has_step(query: Query, from: Point, v: WaypointRecord) -> bool
    ensures { let t = query.entry in result ≡ has (leads_to v) (steps_from (space_of t.world) t.request t.body from) }
{
    let band = steps::band_of(query.request, query.body, from);
    let mut sides = Sides::none();
    for n in 0..9 {
        let Some(level) = look_column(query, from, band, sides.looked(n), n, v) else {
            return true;
        };
        sides = sides.answered(n, level);
    }
    false
}

// Whether a pair is the graph's: a graph step leads from the feet to the record, or at the last pair a connector to the goal.
pub fn is_joined(query: Query, from: Feet, v: WaypointRecord, last: bool) -> bool
    ensures { let t = query.entry in result ≡ joined (graph (space_of t.world) t.request t.body) last from (entry v) }
{
    let point = words::point_of(from);
    has_step(query, point, v)
        || (last & listed::same_feet(query.request.goal, v))
            && listed::labelled_by(edges::connector(query, point), v)
}

// Why a pair is none of the graph's.
pub fn fault_of(query: Query, from: Feet, to: Feet, last: bool) -> PairFault
    ensures { let t = query.entry in result ≡ pair_fault (space_of t.world) t.request t.body last from to }
{
    match edges::edge_check(query, words::point_of(from), words::point_of(to)) {
        Err(why) => PairFault::NoEdge(why),
        Ok(step) => {
            let own = WaypointRecord {
                feet: to,
                label: words::label_of(step),
            };
            if is_joined(query, from, own, last) {
                return PairFault::WrongLabel;
            }
            PairFault::NotAStep
        }
    }
}
