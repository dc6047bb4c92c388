// What the public calls tell a host, on numbers: for an answer 01's number, and its values, zeros elsewhere; the message and the chain that a
// number names; and the versions of the library and of the layout of areas. It stands on the types of the answers; it refuses nothing.
#![tactic(auto)]

pub mod check_values;
pub mod step_values;

ghost use Rattle.std.specs.Prelude.{◌≡◌, pos};
ghost use Rattle.areas.specs.Area.{knot_check};
ghost use Rattle.refusals.specs.Numbers.{number_of};
ghost use Rattle.host_values.specs.Interface.{chain_of};
ghost use Rattle.host_values.specs.Versions.{library_version};

use areas::places;
use refusals::Refusal;
use tables::Chain;

// The version of the library as one number: 1.0.0.
pub fn version() -> u32
    ensures { result ≡ library_version }
{
    10000
}

// The version of the layout: what word 0 of every area holds that a start makes and the other calls accept.
pub fn layout() -> u32
    ensures { pos result ≡ knot_check }
{
    places::KNOT_CHECK as u32
}

// 01's number for an answer, 0 where nothing is refused.
pub fn number<A>(answer: &Result<A, Refusal>) -> u32
    ensures { result ≡ number_of answer.now }
{
    refusals::number_of(answer)
}

// 0 is the out-chain, any other number the in-chain.
// Stays: the C interface gives a number for a chain, and neither of these types is declared here, so it cannot be a From.
#[tactic(auto, unfolding(crate::specs::Interface::chain_of))]
pub fn chain_of(number: u32) -> Chain
    ensures { result ≡ chain_of number }
{
    if number == 0 { Chain::Out } else { Chain::In }
}
