// Records of 8 bytes (01, "Tables, little-endian records"): cells and shapes.
ghost use Rattle.std.specs.Prelude.{◌≡◌, ◌^◌, ◌≤◌};
ghost use Rattle.scene_tables.specs.Made.{with_entry, unfilled, empty_shapes, with_shape};

// Record i set to two numbers.
#[tactic(auto, unfolding(crate::specs::Made::with_entry))]
pub fn put_entry(table: &mut [u8], i: u32, a: u32, b: u32)
    ensures { table.new ≡ with_entry a b i table.old }
{
    let at = 8 * (i as usize);
    stores::put_u32(table, at, a);
    stores::put_u32(table, at + 4, b);
}

// The records from one to that before the end, each set to a number and 0. The end is a usize: behind the last u32 there is one more.
fn put_firsts(table: &mut [u8], from: u32, end: usize, first: u32)
    requires { end ≤ 2 ^ 32 }
    ensures { table.new ≡ empty_shapes from end first table.old }
{
    for i in from as usize..end {
        put_entry(table, i as u32, first, 0);
    }
}

// The first n cells, unfilled.
#[tactic(auto, unfolding(crate::specs::Made::unfilled, crate::specs::Made::empty_shapes))]
pub fn clear_cells(cells: &mut [u8], n: u32)
    ensures { cells.new ≡ unfilled n cells.old }
{
    put_firsts(cells, 0, n as usize, 4294967295);
}

// The shapes from one to n, empty, and then the count of shape n.
#[tactic(auto, unfolding(crate::specs::Made::with_shape))]
pub fn put_shape(shapes: &mut [u8], from: u32, n: u32, first: u32, count: u32)
    ensures { shapes.new ≡ with_shape from n first count shapes.old }
{
    let at = n as usize;
    put_firsts(shapes, from, at + 1, first);
    stores::put_u32(shapes, 8 * at + 4, count);
}
