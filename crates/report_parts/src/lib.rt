// The parts of a report that need no area: whether a process is the way out, the verdict, the mark, and the report made of these.
#![tactic(auto)]

ghost use Rattle.std.specs.Prelude.{◌≡◌};
ghost use Rattle.checks.specs.Calls.{mark_of};
ghost use Rattle.report_parts.specs.Told.{way_out, knot_by, told_of};

use checks::{Mark, Report, Verdict};
use steps::Process;

// The way out that was found before, or else process p, if it is one.
pub fn way_out(found: u32, x: Process, p: u32) -> u32
    ensures { result ≡ way_out found x p }
{
    if found == 0 && x.subordinate == 1 {
        p
    } else {
        found
    }
}

// The verdict is knot: the start's sum is 0, and the edition allows it.
pub fn is_knot(start: Process, allowed: bool) -> bool
    ensures { result ≡ knot_by start allowed }
{
    start.cs == 0 && allowed
}

// 02, N3: "The report marks returned if the start's second sum is 0, else held."
fn mark_of(start: Process) -> Mark
    ensures { result ≡ mark_of start }
{
    if start.second == 0 {
        Mark::Returned
    } else {
        Mark::Held
    }
}

// The report by the start's record and the verdict.
pub fn told(start: Process, knot: bool, deliveries: u32, escape: u32) -> Report
    ensures { result ≡ told_of start knot deliveries escape }
{
    let verdict = if knot { Verdict::Knot } else { Verdict::Free };
    Report {
        deliveries,
        verdict,
        outside: start.cs,
        escape,
        mark: mark_of(start),
    }
}
