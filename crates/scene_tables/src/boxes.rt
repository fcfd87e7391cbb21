// A box record of 48 bytes (01, "Tables, little-endian records").
ghost use Rattle.std.specs.Prelude.{◌≡◌};
ghost use Rattle.scene_tables.specs.Made.{with_box};

// Box k set to the six numbers of a scene record, word by word: one that does not fit the table is not written.
pub fn put_box(boxes: &mut [u8], k: u32, bytes: &[u8])
    ensures { boxes.new ≡ with_box bytes.now k boxes.old }
{
    let at = 48 * (k as usize);
    for j in 0..6 {
        let word = fields::u64_at(bytes, 8 + 8 * j);
        stores::put_u64(boxes, at + 8 * j, word);
    }
}
