// Prints scenes as walkprint does, reads scenes, and asks the proved functions about them, all from standard input (oracle/README.md, `store`). A case prints
// a line: a digest of all that was answered and left in the tables and rooms. What it must print is what the original answers; scenes/replay.lst names the
// cases.
#![tactic(auto)]

mod asked;
mod case;
mod lookups;
mod sheet;
mod sum;
mod trial;
mod two_points;

// The next scene that walkprint is to print: none, or one more than its bytes.
fn print_scene<R: Input + Print>(rt: &R) {
    let n = input::number(rt, 2) as usize;
    if 0 < n {
        print::print_scene(rt, n - 1);
    }
}

fn print_line(rt: &impl Print, d: u64) {
    let _ = println!(rt; "{d:016x}");
}

// What changes from case to case is a run of the scene's bytes and one of the sheet's.
fn main(rt: HostRuntime) {
    let mut scene = [0u8; 24576];
    let mut sheet = [0u8; 356];
    let count = input::number(&rt, 2);
    for _ in 0..count {
        print_scene(&rt);
        sheet::change(&rt, &mut scene);
        sheet::change(&rt, &mut sheet);
        print_line(&rt, case::read(&scene, &sheet));
    }
}
