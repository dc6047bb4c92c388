// Reading a record, on any words that a caller lends. It tests the area first; one that is not well formed gets 21. It changes no word. What follows
// the test is a function of its own (`read_in`), for whoever has tested the area already.
#![tactic(auto)]

ghost use Rattle.std.specs.Prelude.{◌≡◌};
ghost use Rattle.area_calls.specs.AreaCalls.{read_answer};

use area_tests::testing;
use lenses::tested::Tested;
use refusals::Refusal;
use steps::Process;
use tables::is_process;

// The record of process p in a tested area: 25.
pub fn read_in(area: Tested, p: usize) -> Result<Process, Refusal>
    ensures { result ≡ read_answer area.entry.words.now p }
{
    if !is_process(p, area.sizes.n) {
        return Err(Refusal::NoLink);
    }
    Ok(area.process(p))
}

// The record of process p: 21, 25.
pub fn read_record(area: &[i32], p: usize) -> Result<Process, Refusal>
    ensures { result ≡ read_answer area.now p }
{
    let sizes = testing::test(area)?;
    read_in(Tested { words: area, sizes }, p)
}
