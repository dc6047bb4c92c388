// The check program (01, "The check program"): standard input to standard output. All of it stands in `printing`; here it is run on 01's
// example.
#![tactic(auto)]

fn main(rt: HostRuntime) {
    printing::check_standard_input(&rt);
}
