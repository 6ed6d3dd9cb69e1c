// Reads trace.tsv and the dumps of the current folder and prints the listing of the replay (document 01, 'One listing in full').
#![tactic(auto)]

fn main(rt: HostRuntime) {
    // A file that can't be read was reported, and nothing is printed.
    let _ = trace::print_trace(&rt, printing::print_replay);
}
