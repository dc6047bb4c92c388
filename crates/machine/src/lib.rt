// Any check that spreads by probes and ends by acknowledgements, apart from what its messages carry: states, links, delivery, running on,
// lists of calls, and what holds of all of them, in specs/. Its one function makes a refusal the answer of running on; it stands on base, refusals and tables.
#![tactic(auto)]

ghost use Rattle.std.specs.Prelude.{◌≡◌};

use refusals::Refusal;

// What running on came to: over, or spent, with the number of deliveries made. Running on answers with this or with `Halted`.
#[derive(Clone, Copy, PartialEq, Eq)]
pub enum Ran {
    Over(u32),
    Spent(u32),
}

// Why running on ended before that, and the number of deliveries made until then.
#[derive(Clone, Copy, PartialEq, Eq)]
pub struct Halted {
    pub refusal: Refusal,
    pub made: u32,
}

// A refusal before the first delivery.
impl From<Refusal> for Halted {
    ghost from_gives = { λ refusal halted. halted ≡ record { refusal = refusal; made = 0 } };

    fn from(refusal: Refusal) -> Halted {
        Halted { refusal, made: 0 }
    }
}
