// The check program, run on an input that is too long: 20,484 bytes, whose first 20,480 are accepted. tools/check_cases.py makes the files
// stdin and stdout.
#![tactic(auto)]

fn main(rt: HostRuntime) {
    printing::check_standard_input(&rt);
}
