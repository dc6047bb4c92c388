// What the plain search (the crate `searching`) expects of a run: the numbers of a case, the answers of the calls, the start of a run in
// words that are watched, and the differences. For the crate `comparing`. It promises only that it is safe and ends.
#![tactic(auto)]

ghost use Rattle.std.specs.Prelude.{◌≡◌, ◌+◌, ◌*◌, ◌^◌, ◌<◌};

use searching::Edition;

pub mod answers;
pub mod faults;
pub mod starts;
pub mod words;

// What the search expects of a case: N, M and the start; the waits by those reachable and for those who reach the start; outside and
// escape; how many of those reachable wait for nobody; whether it is a knot by the first edition, and by the second. Of a run also: the edition
// that its start names.
#[derive(Clone, Copy)]
pub struct Expected {
    pub n: u16,
    pub m: u16,
    pub start: usize,
    pub sucs: usize,
    pub pres: usize,
    pub outside: i32,
    pub escape: u32,
    pub idlers: i32,
    pub first: bool,
    pub second: bool,
    pub edition: Edition,
}

impl Expected {
    // "start needs 8N + 20M + 16"
    pub fn needed(self) -> usize
        ensures sum { result ≡ 8 * self.n + 20 * self.m + 16 }
        ensures small { result < 2 ^ 24 }
    {
        8 * usize::from(self.n) + 20 * usize::from(self.m) + 16
    }

    // Whether the search finds a knot by the edition of the run.
    fn is_knot(&self) -> bool {
        match self.edition {
            Edition::First => self.first,
            Edition::Second => self.second,
        }
    }
}
