// Messages and process records, the tests of their ranges, and what a process adds of its own; what one process's step is (01, section "Steps") is
// defined in specs/. The code of a step stands above: `rules` and `one_step`. It refuses nothing; a law of it stands on machine.
#![tactic(auto)]

ghost use Rattle.std.specs.Prelude.{◌≡◌, pos};
ghost use Rattle.steps.specs.Step.{small, both_small, in_range, count_small, own_count, probe_of, chain_of};

use tables::Chain;

// "cs (−128 to 128)": the largest sum, which is the largest count too
pub const MOST_COUNT: i32 = 128;

// .. and the least
pub const LEAST_COUNT: i32 = -MOST_COUNT;

// "num (0 to 256)"
pub const MOST_NUM: u32 = 256;

// "Acknowledgements carry a second count .. of reachable processes that wait for nobody" (02, N3): the count, and the second one.
#[derive(Clone, Copy, PartialEq, Eq, Default)]
pub struct TwoCounts {
    pub count: i32,
    pub second: i32,
}

// A message: "a suc probe, a pre probe or an acknowledgement with its count", and its second count (02, N3).
#[derive(Clone, Copy, PartialEq, Eq)]
pub enum Message {
    Suc,
    Pre,
    Ack(TwoCounts),
}

// The probe that goes along a chain.
impl From<Chain> for Message {
    ghost from_gives = { λ chain message. message ≡ probe_of chain };

    fn from(chain: Chain) -> Message {
        match chain {
            Chain::Out => Message::Suc,
            Chain::In => Message::Pre,
        }
    }
}

// A process's record: "succeeding, preceding, subordinate .., cs .., num .. and father", and the second sum (02, N3). "All values 0" by default.
// Stays: flags and father as numbers, since a lent record may hold any, and what is out of range is refused with 21, not unsayable (01, "Steps").
#[derive(Clone, Copy, PartialEq, Eq, Default)]
pub struct Process {
    pub succeeding: u32,
    pub preceding: u32,
    pub subordinate: u32,
    pub cs: i32,
    pub num: u32,
    pub father: u32,
    pub second: i32, // "processes a second sum" (02, N3)
}

// The probes that a step broadcasts: suc to all successors, pre to all predecessors, or none.
#[derive(Clone, Copy, PartialEq, Eq, Default)]
pub enum Probes {
    #[default]
    Nothing,
    Sucs,
    Pres,
}

impl Probes {
    // The chain along which they go, if there are any.
    pub fn chain(self) -> Option<Chain>
        ensures { result ≡ chain_of self }
    {
        match self {
            Probes::Nothing => None,
            Probes::Sucs => Some(Chain::Out),
            Probes::Pres => Some(Chain::In),
        }
    }
}

// An acknowledgement that a step sends: to whom and with which counts.
#[derive(Clone, Copy, PartialEq, Eq)]
pub struct Reply {
    pub to: u32,
    pub counts: TwoCounts,
}

// What a step sends: "the probes to broadcast and the one acknowledgement to send", if there is one.
#[derive(Clone, Copy, PartialEq, Eq)]
pub struct Sent {
    pub probes: Probes,
    pub reply: Option<Reply>,
}

// What a step leaves: the process's new record and what it sends.
#[derive(Clone, Copy, PartialEq, Eq)]
pub struct Turn {
    pub process: Process,
    pub sent: Sent,
}

// "The count may be negative (−128 to 128)"
#[tactic(auto, using(crate::proofs::Counts::small_back), unfolding(crate::specs::Step::small))]
fn is_small(count: i32) -> bool
    ensures { result ≡ small count }
{
    LEAST_COUNT <= count && count <= MOST_COUNT
}

// "it and the second count have cs's range" (02, N3)
#[tactic(auto, using(crate::proofs::Counts::small_back), unfolding(crate::specs::Step::both_small))]
pub fn are_both_small(counts: TwoCounts) -> bool
    ensures { result ≡ both_small counts }
{
    is_small(counts.count) && is_small(counts.second)
}

// "Such a process adds 1" (02, N3): 1 for a process that waits for nobody.
#[tactic(auto, unfolding(crate::specs::Step::own_count))]
pub fn own_count(out_degree: u32) -> i32
    ensures { result ≡ pos (own_count out_degree) }
{
    i32::from(out_degree == 0)
}

// "succeeding, preceding, subordinate (0 or 1 each), cs (−128 to 128), num (0 to 256)", and the second sum in cs's range
#[tactic(auto, using(crate::proofs::Counts::small_back), unfolding(crate::specs::Step::in_range))]
pub fn is_in_range(process: Process) -> bool
    ensures { result ≡ in_range process }
{
    process.succeeding <= 1
        && process.preceding <= 1
        && process.subordinate <= 1
        && is_small(process.cs)
        && process.num <= MOST_NUM
        && is_small(process.second)
}

// A probe has no count to be out of range.
#[tactic(auto, unfolding(crate::specs::Step::count_small))]
pub fn is_count_small(message: Message) -> bool
    ensures { result ≡ count_small message }
{
    match message {
        Message::Suc | Message::Pre => true,
        Message::Ack(counts) => are_both_small(counts),
    }
}
