// The length of a list (01, "Scenes and walkprint"; 02, No. 2).
ghost use Rattle.std.specs.Prelude.{◌≡◌};
ghost use Rattle.lengths.specs.Length.{length_of};

// The length of a list of waypoint records, as walkprint prints it; a partial record at the end is not read.
#[unsafe(no_mangle)]
pub extern "C" fn walkprint_length(list: &[u8]) -> f64
    ensures { result ≡ length_of list.now }
{
    lengths::length_of(list)
}
