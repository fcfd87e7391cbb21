// What walkprint tells of a scene, and its lines (01, "Scenes and walkprint").
#![tactic(auto)]

ghost use Rattle.std.specs.Prelude.{◌≡◌};
ghost use Rattle.report.specs.Lines.{in_buffer, count_in};
ghost use Rattle.print_lines.specs.Lines.{line_of};

pub use report::Told;

// Line k at the start of a buffer: line 0 is the first one, and line k + 1 that of waypoint k. The answer is how many bytes it has.
pub fn line(told: Told, list: &[u8], k: usize, buffer: &mut [u8]) -> usize
    ensures count { result ≡ count_in (line_of told list.now k) buffer.old }
    ensures bytes { buffer.new ≡ in_buffer (line_of told list.now k) buffer.old }
{
    if k == 0 {
        return report::first_line(buffer, told);
    }
    if told.waypoints < k {
        return 0;
    }
    report::waypoint_line(buffer, list, k - 1)
}
