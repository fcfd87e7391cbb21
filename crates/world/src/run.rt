// The boxes of a shape (01, "Tables"): a run of box records, from the shape's first one on, one after the other.
ghost use Rattle.std.specs.Prelude.{◌≡◌, ◌*◌, drop};
ghost use Rattle.std.specs.Iterator.{YieldsFirst, item_count};
ghost use Rattle.world.specs.Space.{run};
ghost use Rattle.world.specs.Run.{boxes_left};

use crate::Aabb;
use crate::records::box_at;

// The boxes that are left: at most so many, at the start of a part of the box table.
#[derive(Clone, Copy)]
pub struct Run<'a> {
    pub part: &'a [u8],
    pub left: u32,
}

// The part of a table from an offset on; where the table ends before it, the part is empty.
#[inline(always)]
fn part_from(s: &[u8], at: usize) -> &[u8]
    ensures { result.now ≡ drop at s.now }
{
    let end = s.len();
    let start = if at < end { at } else { end };
    &s[start..]
}

// The part of the box table that starts at a shape's first record; where the table ends before it, the part is empty.
pub fn boxes_from(boxes: &[u8], first: u32) -> &[u8]
    ensures { result.now ≡ drop (48 * first) boxes.now }
{
    part_from(boxes, 48 * (first as usize))
}

// The run of a shape: so many boxes from its first one on, or as many as the table has.
pub fn boxes_in(boxes: &[u8], first: u32, count: u32) -> Run<'_>
    ensures part { result.part.now ≡ drop (48 * first) boxes.now }
    ensures left { result.left ≡ count }
    ensures boxes { boxes_left result ≡ run count (drop (48 * first) boxes.now) 0 }
{
    Run {
        part: boxes_from(boxes, first),
        left: count,
    }
}

impl<'a> Iterator for Run<'a> {
    type Item = Aabb;

    ghost next_gives = { YieldsFirst boxes_left };

    ghost remaining = { item_count boxes_left };

    // The table's end ends a run too. Inlined, since each column and way goes over many runs.
    #[inline(always)]
    fn next(&mut self) -> Option<Aabb> {
        if self.left == 0 {
            return None;
        }
        let b = box_at(self.part, 0)?;
        self.part = part_from(self.part, 48);
        self.left -= 1;
        Some(b)
    }
}
