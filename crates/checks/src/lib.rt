// The answers of a knot check's calls, and the test of an edition. What the calls do is defined in specs/ and proved to end alike for every
// order in the crate `ending`; the calls on lent words stand in a crate above. A pick answers with the delivered message or a refusal, running on
// with `machine::Ran` or `machine::Halted`, as in any check, the report with a `Report` or a refusal, and reading a record with it or a refusal.
#![tactic(auto)]

ghost use Rattle.std.specs.Prelude.{◌≡◌};
ghost use Rattle.checks.specs.Run.{is_edition};

// "at most 4 messages waiting", on each link
pub const MOST_WAITING: usize = 4;

// "accepted deliveries, 0 to 2048"
pub const MOST_DELIVERIES: u32 = 2048;

// 02, N4: "the edition, 1 or 2".
#[tactic(auto, unfolding(crate::specs::Run::is_edition))]
pub fn is_edition(edition: usize) -> bool
    ensures { result ≡ is_edition edition }
{
    edition == 1 || edition == 2
}

// The verdict: knot, or none.
#[derive(Clone, Copy, PartialEq, Eq)]
pub enum Verdict {
    Knot,
    Free,
}

// The mark of a payment: returned, or held.
#[derive(Clone, Copy, PartialEq, Eq)]
pub enum Mark {
    Returned,
    Held,
}

// The report of a run that is over.
#[derive(Clone, Copy, PartialEq, Eq)]
pub struct Report {
    pub deliveries: u32,
    pub verdict: Verdict,
    pub outside: i32,
    pub escape: u32,
    pub mark: Mark,
}
