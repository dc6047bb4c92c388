// The receiver's step in a tested area: the degrees that it needs, and the step itself.
ghost use Rattle.std.specs.Prelude.{◌≡◌, true, ◌≤◌};
ghost use Rattle.steps.specs.Step.{count_small};
ghost use Rattle.areas.specs.Area.{run_in};
ghost use Rattle.preparing.specs.Receiving.{stepped_at, needed};
ghost use Rattle.tables.specs.Chains.{degree};

use lenses::tested::Tested;
use refusals::Refusal;
use steps::{Message, Process, Turn};
use tables::Chain;

// The degree of b along a chain, if its step on the message broadcasts along it, and else 0: each count is a walk of the chain.
fn needed(area: Tested, c: Chain, b: usize, x: Process, message: Message) -> u32
    requires { (1 ≤ b) × (b ≤ area.sizes.n) }
    ensures { result ≡ needed c message x (degree c (run_in area.entry.words.now).waits b) }
{
    match (c, message) {
        (Chain::Out, Message::Suc) if x.succeeding == 0 => area.degree(c, b),
        (Chain::In, Message::Pre) if x.preceding == 0 => area.degree(c, b),
        _ => 0,
    }
}

// The receiver's step: the start's own, or that of any other process.
#[inline(always)]
pub fn step_at(area: Tested, a: usize, b: usize, message: Message) -> Result<Turn, Refusal>
    requires a_is_process { (1 ≤ a) × (a ≤ area.sizes.n) }
    requires b_is_process { (1 ≤ b) × (b ≤ area.sizes.n) }
    requires small_counts { count_small message ≡ true }
    ensures { result ≡ stepped_at (run_in area.entry.words.now) a b message }
{
    let x = area.process(b);
    if b == area.start() {
        return one_step::start_step(x, message, a as u32);
    }
    let out_degree = needed(area, Chain::Out, b, x, message);
    let in_degree = needed(area, Chain::In, b, x, message);
    one_step::other_step(x, message, out_degree, in_degree, a as u32)
}
