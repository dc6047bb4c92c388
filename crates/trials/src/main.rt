// Trials: the library (tables written and read, start, and the calls of `picks`, `runs`, `reports` and `record_reading`) against a plain graph
// search written apart from it (the crate `searching`).
//
// A case is a wait graph and a start. Its table is written by the library and read by the search, from the bytes. It is run in the fixed
// order, in many other orders by picks (the crate `comparing`) and in one by seeds, with refused picks, readings, runnings on by nothing and
// refused ones with seed 0 among them.
// The last run but one of each case overtakes: its picks take younger messages first wherever two wait on a link (02, N5), and the line of a
// family says how many deliveries did. The last runs on with drawn seeds (02, N13), at once or in pieces, maybe with picks between them, and the
// line says how many deliveries these made.
// The runs of a case name the two editions in turn (02, N4), and the line of a family says how many cases are knots by each; all else is
// expected to be the same under both. It also says how many cases are returned (02, N3): every knot by the second edition is among them, those
// that are knots by the first alone are not, and the others are no knots.
// Before each run the starts that are to be refused are. After every delivery a report is refused exactly while fewer than D were made. At
// the end the report and every record are compared with the search; then come fixed and drawn calls past the end, which are refused or
// make nothing, and the end is compared again. No call that delivers nothing changes a word or what a report says (looked at after each call
// in small areas and past the end, and now and then in large ones); and no call changes a surplus word.
//
// What no search tells is not tried here but in hosts/rust/compare, against a plain Rust and word for word: which message a pick takes, in
// which order running on goes, the second sums and counts on the way, and what calls make of areas that no run leaves.
//
// It prints a line for each family of cases, and a last line that names the first difference or says that there is none. It stops at the
// first difference. Random numbers come from fixed seeds, so a difference is found again. It promises only that it is safe and ends.
#![tactic(auto)]

mod cases;

use cases::Tally;
use drawing::families::{FAMILIES, Family};
use expecting::faults::Fault;
use std::io;
use std::io::Write;

fn print_tally<W: Write>(to: &mut W, family: Family, t: &Tally) -> io::Result<()> {
    writeln!(
        to,
        "up to {} processes: cases {}, knots {}, by the second edition {}, returned {}, runs {}, \
         deliveries {}, overtaking {}, shuffled {}",
        family.n,
        t.cases,
        t.first,
        t.second,
        t.returned,
        t.runs,
        t.deliveries,
        t.overtaking,
        t.shuffled
    )
}

// Names the first difference, in the last run of the family whose line stands above.
fn print_difference<W: Write>(to: &mut W, t: &Tally, fault: Fault) -> io::Result<()> {
    writeln!(
        to,
        "first difference: start {}, edition {}, order {}, delivery {} of {}, number in expecting::faults {}",
        t.start, t.last.edition, t.last.order, t.last.made, t.last.due, fault as u64
    )
}

fn main(rt: HostRuntime) -> io::Result<()> {
    let mut to = io::writer(&rt);
    for (seed, family) in (1..).zip(FAMILIES) {
        let mut t = Tally {
            seed,
            ..Tally::default()
        };
        let told = t.try_family(family);
        print_tally(&mut to, family, &t)?;
        if let Err(fault) = told {
            return print_difference(&mut to, &t, fault);
        }
    }
    writeln!(to, "no difference")
}
