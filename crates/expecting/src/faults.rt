// The differences that a run can show.
ghost use Rattle.std.specs.Prelude.{◌≡◌, ◌↔◌, IsTrue, IsOk, IfErr};

// Each has a number, by which the program `trials` names it.
#[derive(Clone, Copy, PartialEq, Eq)]
pub enum Fault {
    // The library refuses to write the table.
    Writing = 1,
    // The library does not read it back.
    Reading = 2,
    // The search reads other waits from it than were written.
    Waits = 3,
    // The start is refused.
    Start = 4,
    // A start that is to be refused is not, or with another number.
    RefusedStart = 5,
    // A pick of a link: before the end neither a message that can be there nor a number that can be met, not 23 after it; a pick that names no
    // link: not 25.
    Pick = 6,
    // Running on, without a seed or with one that is not 0: refused, over or spent with another number made, or over at another number than D.
    RunningOn = 7,
    // A report says over before D, or not over at D.
    Over = 8,
    // Every link is empty or there were too many calls, and it is not over.
    Still = 9,
    // Reading a record at any time, or of no process.
    Record = 10,
    // The report of the end, but for the verdict and the mark.
    Report = 11,
    // A record at the end.
    LastRecord = 12,
    // The numbers of sucs and of pres that picks delivered.
    Probes = 13,
    // A call that delivered nothing changed a word.
    Changed = 14,
    // A surplus word changed.
    Surplus = 15,
    // A start under an edition that is neither 1 nor 2 is not refused with 30, or not in 30's place: after 8 and before 9.
    RefusedEdition = 16,
    // The verdict of the end is not that of the edition which the start named.
    Verdict = 17,
    // The mark of the end is not returned where every process reachable from the start waits for somebody, or not held where one does not.
    Mark = 18,
    // Running on with seed 0 is not refused with 37, in a run that is over or not, by nothing or by more.
    Seed = 19,
}

// The difference, unless the test holds.
pub fn expect(test: bool, fault: Fault) -> Result<(), Fault>
    ensures held { IsOk result ↔ IsTrue test }
    ensures named { IfErr result (λ e. e ≡ fault) }
{
    if test { Ok(()) } else { Err(fault) }
}
