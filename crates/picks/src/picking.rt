// A pick: the delivery of one message of a link, by its place (02, N5).
ghost use Rattle.std.specs.Prelude.{◌≡◌, true};
ghost use Rattle.tables.specs.Table.{IsProcess};
ghost use Rattle.tables.specs.Waits.{waits_of, neighbours};
ghost use Rattle.areas.specs.Area.{fields_in};
ghost use Rattle.areas.specs.Squares.{Row};
ghost use Rattle.lenses.specs.Ready.{Ready};
ghost use Rattle.area_calls.specs.AreaCalls.{pick_answer, pick_area};

use area_tests::testing;
use areas::squares;
use delivery::delivering;
use lenses::tested::Tested;
use link_lenses::links::LinkAt;
use refusals::Refusal;
use steps::Message;
use tables::{Sizes, is_process};

// A pick on the link of two neighbours, with the row of the second: 23, 24, 31, 22.
fn pick_on(
    area: &mut [i32],
    row: &[u16],
    sizes: Sizes,
    from: usize,
    to: usize,
    place: usize,
) -> Result<Message, Refusal>
    requires ready { Ready area.old sizes }
    requires row { Row (fields_in area.old) to row.now }
    requires ends { IsProcess sizes.n from × IsProcess sizes.n to }
    requires neighbours { neighbours (waits_of (fields_in area.old)) from to ≡ true }
    ensures answer { result ≡ pick_answer area.old from to place }
    ensures area_after { area.new ≡ pick_area area.old from to place }
{
    if (Tested { words: area, sizes }).is_over() {
        return Err(Refusal::Over);
    }
    let at = rows::place_to(Tested { words: area, sizes }, from, to, row);
    delivering::deliver(area, row, sizes, LinkAt { from, to, at }, place)
}

// A pick in a tested area, for whoever makes more than one: 25, 23, 24, 31, 22. The area stays ready (pick_ready in proofs/Kept).
pub fn pick_in(
    area: &mut [i32],
    sizes: Sizes,
    from: usize,
    to: usize,
    place: usize,
) -> Result<Message, Refusal>
    requires { Ready area.old sizes }
    ensures answer { result ≡ pick_answer area.old from to place }
    ensures area_after { area.new ≡ pick_area area.old from to place }
{
    if !is_process(from, sizes.n) || !is_process(to, sizes.n) {
        return Err(Refusal::NoLink);
    }
    let mut row = [0u16; tables::SIDE];
    rows::fill_row(Tested { words: area, sizes }, to, &mut row);
    if squares::cell_of(&row, from) == 0 {
        return Err(Refusal::NoLink);
    }
    pick_on(area, &row, sizes, from, to, place)
}

// Delivers the message at a place, 1 for the oldest, of the link from one process to another: 21, 25, 23, 24, 31, 22.
pub fn pick(area: &mut [i32], from: usize, to: usize, place: usize) -> Result<Message, Refusal>
    ensures answer { result ≡ pick_answer area.old from to place }
    ensures area_after { area.new ≡ pick_area area.old from to place }
{
    let sizes = testing::test(area)?;
    pick_in(area, sizes, from, to, place)
}
