// walkprint (01, "Scenes and walkprint"): reads a scene on standard input and prints what the search answers.
#![tactic(auto)]

fn main(rt: HostRuntime) {
    print::print_scene(&rt, usize::MAX);
}
