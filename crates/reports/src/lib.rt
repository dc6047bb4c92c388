// The report on any words that a caller lends. It tests the area first; one that is not well formed gets 21. It changes no word. What follows the
// test is a function of its own (`report_in`), for whoever has tested the area already.
#![tactic(auto)]

ghost use Rattle.std.specs.Prelude.{◌≡◌};
ghost use Rattle.areas.specs.Area.{run_in};
ghost use Rattle.checks.specs.Calls.{escape_of};
ghost use Rattle.area_calls.specs.AreaCalls.{report_answer};
ghost use Rattle.reports.specs.Judging.{allowed_in};

use area_tests::testing;
use checks::Report;
use lenses::tested::Tested;
use refusals::Refusal;
use tables::Chain;

// 02, N1: the lowest-numbered process with subordinate 1, and 0 only where there is none.
fn escape_of(area: Tested) -> u32
    ensures { result ≡ escape_of (run_in area.entry.words.now) }
{
    let mut found: u32 = 0;
    for p in 1..=area.sizes.n {
        found = report_parts::way_out(found, area.process(p), p as u32);
    }
    found
}

// 02, N4: what the edition asks of a knot in addition: nothing under the first, under the second that the start waits for somebody.
fn edition_allows(area: Tested) -> bool
    ensures { result ≡ allowed_in (run_in area.entry.words.now) }
{
    area.edition() != 2 || area.degree(Chain::Out, area.start()) != 0
}

// The report in a tested area: 26.
pub fn report_in(area: Tested) -> Result<Report, Refusal>
    ensures { result ≡ report_answer area.entry.words.now }
{
    if !area.is_over() {
        return Err(Refusal::NotOver);
    }
    let start = area.process(area.start());
    let knot = report_parts::is_knot(start, edition_allows(area));
    Ok(report_parts::told(start, knot, area.count(), escape_of(area)))
}

// The report of a run that is over: 21, 26.
pub fn report(area: &[i32]) -> Result<Report, Refusal>
    ensures { result ≡ report_answer area.now }
{
    let sizes = testing::test(area)?;
    report_in(Tested { words: area, sizes })
}
