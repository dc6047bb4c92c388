// The refusals of 01 and 02, each by a name, with the number that 01 lists for it. The names are those of include/pickledune.h. It stands on
// `base`.
#![tactic(auto)]

ghost use Rattle.std.specs.Prelude.{◌≡◌};
ghost use Rattle.refusals.specs.Numbers.{number, number_of};

// Why a call was refused, by its number: 1 to 13, 30 and 37 because of what was given, 21 to 26 and 31 because of the state.
#[derive(Clone, Copy, PartialEq, Eq)]
pub enum Refusal {
    TableShort = 1,
    Sizes = 2,
    TableLength = 3,
    Ends = 4,
    ChainField = 5,
    Chain = 6,
    ArcTwice = 7,
    Process = 8,
    AreaShort = 9,
    ListOdd = 10,
    OutputShort = 11,
    BytesLeft = 12,
    InputLong = 13,
    NotWellFormed = 21,
    OutOfRange = 22,
    Over = 23,
    NoMessage = 24,
    NoLink = 25,
    NotOver = 26,
    Edition = 30,
    Place = 31,
    Seed = 37,
}

// 01's number for a refusal.
impl From<Refusal> for u32 {
    ghost from_gives = { λ refusal k. k ≡ number refusal };

    fn from(refusal: Refusal) -> u32 {
        refusal as u32
    }
}

// 01's number for the answer of a call that may be refused: 0 where nothing is refused.
pub fn number_of<A>(answer: &Result<A, Refusal>) -> u32
    ensures { result ≡ number_of answer.now }
{
    match answer {
        Ok(_) => 0,
        Err(refusal) => u32::from(*refusal),
    }
}
