// The check program, run under the second edition on a check of 2,048 deliveries without picks: no run counts more. tools/check_cases.py
// makes the files stdin and stdout.
#![tactic(auto)]

fn main(rt: HostRuntime) {
    printing::check_standard_input(&rt);
}
