// Reads trace.tsv and the dumps of the current folder and prints the pages that were written, each with the stamp of its last writing (document 02, request 1/12).
#![tactic(auto)]

fn main(rt: HostRuntime) {
    // A file that can't be read was reported, and nothing is printed.
    let _ = trace::print_trace(&rt, printing::print_pages);
}
