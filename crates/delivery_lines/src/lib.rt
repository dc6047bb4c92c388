// The lines of the picks and of the deliveries that the check program makes itself, each put while its delivery is made, behind those before (01, "The
// check program"; program_text, `Program`). Each function says which run the area holds after it. It stands on `picks`, `runs`, `choosing`,
// `inputs`, `lines` and below; it refuses nothing, and puts the number of a refused delivery.
#![tactic(auto)]

ghost use Rattle.std.specs.Prelude.{◌≡◌};
ghost use Rattle.base.specs.Choice.{bit};
ghost use Rattle.areas.specs.Area.{run_in, keeping};
ghost use Rattle.checks.specs.Run.{knot};
ghost use Rattle.checks.specs.Calls.{delivery_number, delivery_made};
ghost use Rattle.checks.specs.Lists.{passed};
ghost use Rattle.lenses.specs.Ready.{Ready};
ghost use Rattle.remembering.specs.Running.{Running};
ghost use Rattle.remembering.specs.Memory.{Remembers};
ghost use Rattle.choosing.specs.Answers.{next_of};
ghost use Rattle.area_calls.specs.AreaCalls.{pick_answer, pick_area};
ghost use Rattle.inputs.specs.Input.{table_end, picks_in};
ghost use Rattle.lines.specs.Adding.{HasRoom, Adds};
ghost use Rattle.program_text.specs.Program.{pick_calls, end_run, pick_line, picks_text, next_chosen, own_line, own_text};

use choosing::ChosenDelivery;
use inputs::{Begun, Pick};
use lenses::tested::Tested;
use lines::Page;
use link_lenses::links;
use marks::Memory;
use picks::picking;
use refusals::Refusal;
use steps::Message;
use tables::Sizes;

// One pick, of the oldest message: "A refused pick prints its number and the program goes on."
fn put_pick(page: &mut Page, area: &mut [i32], sizes: Sizes, pick: Pick)
    requires ready { Ready area.old sizes }
    requires room { HasRoom page.old (pick_line pick.from pick.to (pick_answer area.old pick.from pick.to 1)) }
    ensures put { Adds page.old (pick_line pick.from pick.to (pick_answer area.old pick.from pick.to 1)) page.new }
    ensures area_after { area.new ≡ pick_area area.old pick.from pick.to 1 }
    ensures ready_after { Ready area.new sizes }
{
    let Pick { from, to } = pick;
    let answer = picking::pick_in(area, sizes, from as usize, to as usize, links::OLDEST);
    let Ok(message) = answer else {
        return page.put_refused_delivery(from, to, refusals::number_of(&answer));
    };
    page.put_delivery(false, from, to, message);
}

// The picks, in order.
pub fn put_picks(page: &mut Page, input: &[u8], begun: Begun, area: &mut [i32], sizes: Sizes)
    requires end_is { begun.end ≡ table_end input.now }
    requires picks_is { begun.picks ≡ picks_in input.now }
    requires ready { Ready area.old sizes }
    requires room { HasRoom page.old (picks_text input.now 0 (picks_in input.now) (run_in area.old)) }
    ensures put { Adds page.old (picks_text input.now 0 (picks_in input.now) (run_in area.old)) page.new }
    ensures area_after { run_in area.new ≡ (passed (pick_calls input.now) (run_in area.old)).left }
    ensures ready_after { Ready area.new sizes }
{
    for j in 0..begun.picks {
        put_pick(page, area, sizes, inputs::pick_at(input, begun.end, j));
    }
}

// One delivery in the fixed order; gives whether it was made.
fn put_own(
    page: &mut Page,
    area: &mut [i32],
    square: &[u16; tables::SQUARE_SIZE],
    sizes: Sizes,
    memory: &mut Memory,
) -> bool
    requires running { Running area.old square.now sizes }
    requires remembers { Remembers (run_in area.old) memory.old }
    requires room { HasRoom page.old (own_line (next_chosen (run_in area.old))) }
    ensures made { bit result ≡ delivery_made (next_of (run_in area.old)).answer }
    ensures put { Adds page.old (own_line (next_chosen (run_in area.old))) page.new }
    ensures area_after { area.new ≡ keeping area.old (next_of (run_in area.old)).run }
    ensures remembers_after { Remembers (run_in area.new) memory.new }
    ensures running_after { Running area.new square.now sizes }
{
    match choosing::deliver_next(area, square, sizes, memory) {
        Ok(ChosenDelivery { from, to, message }) => {
            page.put_delivery(true, from as u32, to as u32, message);
            true
        }
        Err(refusal) => {
            page.put_refused(u32::from(refusal));
            false
        }
    }
}

// "After the picks it runs on to the end": by as many deliveries as a run counts at most, so none is left out.
pub fn put_owns(
    page: &mut Page,
    area: &mut [i32],
    square: &[u16; tables::SQUARE_SIZE],
    sizes: Sizes,
    memory: &mut Memory,
)
    requires running { Running area.old square.now sizes }
    requires remembers { Remembers (run_in area.old) memory.old }
    requires room { HasRoom page.old (own_text knot.most (run_in area.old)) }
    ensures put { Adds page.old (own_text knot.most (run_in area.old)) page.new }
    ensures area_after { run_in area.new ≡ end_run (run_in area.old) }
    ensures running_after { Running area.new square.now sizes }
{
    for turn in 0..checks::MOST_DELIVERIES {
        if (Tested { words: area, sizes }).is_over() {
            return;
        }
        if !put_own(page, area, square, sizes, memory) {
            return;
        }
    }
}
