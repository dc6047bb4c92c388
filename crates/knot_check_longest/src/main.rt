// The check program, run on the longest input that is accepted: 20,480 bytes. tools/check_cases.py makes the files stdin and stdout.
#![tactic(auto)]

fn main(rt: HostRuntime) {
    printing::check_standard_input(&rt);
}
