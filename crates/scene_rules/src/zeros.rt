// "unused bytes zero" (01, "Scenes and walkprint").
ghost use Rattle.std.specs.Prelude.{◌≡◌, drop};
ghost use Rattle.scene_records.specs.Layout.{zeros, unused_from};

// Whether every byte from an offset on is zero. Each is looked at, and not `all`: in a good record they all are zero, and so the compiler can look at many at once.
pub(crate) fn zeros_from(bytes: &[u8], from: usize) -> bool
    ensures { result ≡ zeros (drop from bytes.now) }
{
    let mut all = true;
    for i in from..bytes.len() {
        all = all & (bytes[i] == 0);
    }
    all
}

// Where the bytes begin that a kind, a byte (`in_order`), does not use.
#[tactic(auto, unfolding(scene_records::specs::Layout::unused_from, scene_records::specs::Layout::by_kind))]
pub(crate) fn unused_from(kind: u8) -> usize
    ensures { result ≡ unused_from kind }
{
    match kind {
        1 => 64,
        2 => 56,
        3 => 32,
        4 => 56,
        5 => 9,
        _ => 40,
    }
}
