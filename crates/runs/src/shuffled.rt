// Running on with a seed (02, N13).
ghost use Rattle.std.specs.Prelude.{◌≡◌};
ghost use Rattle.area_calls.specs.AreaCalls.{shuffled_answer, shuffled_area};

use crate::running;
use area_tests::testing;
use machine::{Halted, Ran};
use refusals::Refusal;

// Makes up to k deliveries in the order that a seed gives (02, N13): 21, then 37 for seed 0, then over, then spent, then 24, 22.
pub fn run_shuffled(area: &mut [i32], k: u32, seed: u32) -> Result<Ran, Halted>
    ensures answer { result ≡ shuffled_answer k seed area.old }
    ensures area_after { area.new ≡ shuffled_area k seed area.old }
{
    let sizes = testing::test(area)?;
    if seed == 0 {
        return Err(Halted::from(Refusal::Seed));
    }
    running::run_in(area, sizes, k, seed)
}
