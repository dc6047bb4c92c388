// Running on: the deliveries of a tested area from any state, and the call in the fixed order. The area is tested once; what is remembered of
// it follows each delivery.
ghost use Rattle.std.specs.Prelude.{◌≡◌};
ghost use Rattle.machine.specs.Calls.{shuffled_order, run_from};
ghost use Rattle.checks.specs.Run.{knot};
ghost use Rattle.areas.specs.Area.{run_in, keeping};
ghost use Rattle.lenses.specs.Ready.{Ready};
ghost use Rattle.remembering.specs.Running.{Running};
ghost use Rattle.remembering.specs.Memory.{Remembers};
ghost use Rattle.area_calls.specs.AreaCalls.{run_on_answer, run_on_area};

use area_tests::testing;
use lenses::tested::Tested;
use machine::{Halted, Ran};
use marks::Memory;
use tables::Sizes;

// The deliveries in a tested area: over, then spent, then 24, 22. The state is moved on before each; from state 0 it stays 0, which is the
// fixed order.
fn drive(
    area: &mut [i32],
    square: &[u16; tables::SQUARE_SIZE],
    sizes: Sizes,
    k: u32,
    seed: u32,
    memory: &mut Memory,
) -> Result<Ran, Halted>
    requires running { Running area.old square.now sizes }
    requires remembers { Remembers (run_in area.old) memory.old }
    ensures answer { result ≡ (run_from knot shuffled_order k 0 seed (run_in area.old)).answer }
    ensures area_after { area.new ≡ keeping area.old (run_from knot shuffled_order k 0 seed (run_in area.old)).run }
{
    let mut made: u32 = 0;
    let mut state = seed;
    loop {
        if (Tested { words: area, sizes }).is_over() {
            return Ok(Ran::Over(made));
        }
        if made >= k {
            return Ok(Ran::Spent(made));
        }
        state = shuffling::moved_on(state);
        if let Err(refusal) = choosing::deliver_drawn(area, square, sizes, state, memory) {
            return Err(Halted { refusal, made });
        }
        made += 1;
    }
}

// The same with the cells of all pairs and what is remembered, from the area alone, for whoever begins with a state.
pub fn run_in(area: &mut [i32], sizes: Sizes, k: u32, seed: u32) -> Result<Ran, Halted>
    requires { Ready area.old sizes }
    ensures answer { result ≡ (run_from knot shuffled_order k 0 seed (run_in area.old)).answer }
    ensures area_after { area.new ≡ keeping area.old (run_from knot shuffled_order k 0 seed (run_in area.old)).run }
{
    let mut square = [0u16; tables::SQUARE_SIZE];
    rows::fill_square(Tested { words: area, sizes }, &mut square);
    let mut memory = Memory::new();
    choosing::remember(Tested { words: area, sizes }, &square, &mut memory);
    drive(area, &square, sizes, k, seed, &mut memory)
}

// Makes up to k deliveries in the fixed order: 21, then over, then spent, then 24, 22.
pub fn run_on(area: &mut [i32], k: u32) -> Result<Ran, Halted>
    ensures answer { result ≡ run_on_answer k area.old }
    ensures area_after { area.new ≡ run_on_area k area.old }
{
    let sizes = testing::test(area)?;
    run_in(area, sizes, k, 0)
}
