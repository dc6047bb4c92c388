// The orders of running on, and one delivery in each: the fixed order, "lowest receiver first and then lowest sender" (02, N11), and the
// order by a state, which points to a place in that list (02, N13). The fixed order is that of state 0, which points to the first place.
//
// So that a delivery costs little that grows with the table unless it broadcasts, something of the links is remembered from one delivery
// to the next: an array of numbers, which `remember` fills and each delivery keeps, behind the predicate `Remembers` (the crate `remembering`).
// It says which links hold a message, and how many to each receiver and to each group of receivers, whatever the order. It stands on
// `remembering`, `delivery` and below; it refuses what a delivery refuses, 24 and 22.
#![tactic(auto)]

ghost use Rattle.std.specs.Prelude.{◌≡◌, ◌≤◌};
ghost use Rattle.areas.specs.Area.{fields_in, run_in, keeping};
ghost use Rattle.areas.specs.Squares.{Linked, Square};
ghost use Rattle.machine.specs.Calls.{link_at, links_of, lowest, drawn};
ghost use Rattle.delivery.specs.Delivering.{told_at, deliver_at};
ghost use Rattle.remembering.specs.Memory.{Remembers};
ghost use Rattle.remembering.specs.Running.{Running};
ghost use Rattle.choosing.specs.Answers.{chosen_of, chosen_answer, drawn_of, next_of};

use areas::squares;
use delivery::delivering;
use delivery::delivering::Delivered;
use lenses::tested::Tested;
use link_lenses::links;
use link_lenses::links::LinkAt;
use marks::{Beginning, Memory};
use refusals::Refusal;
use remembering::{filling, noting};
use steps::Message;
use tables::Sizes;

// A link with a message: who sends, and who receives.
#[derive(Clone, Copy, PartialEq, Eq)]
struct Link {
    from: usize,
    to: usize,
}

// One delivery on a chosen link: the message with its link.
#[derive(Clone, Copy, PartialEq, Eq)]
pub struct ChosenDelivery {
    pub from: usize,
    pub to: usize,
    pub message: Message,
}

// What the order remembers, from the area alone.
pub fn remember(area: Tested, square: &[u16; tables::SQUARE_SIZE], memory: &mut Memory)
    requires { Square (fields_in area.words.now) square.now }
    ensures { Remembers (run_in area.entry.words.now) memory.new }
{
    filling::fill(area, square, memory)
}

// The link with a message at a place in the fixed order, counted from 0 (02, N11 and N13): a receiver whose links all stand before the place is
// passed over by their number, and the loops begin at the receiver and at the sender that the array names; they are left by label (01).
fn choose(
    area: Tested,
    square: &[u16; tables::SQUARE_SIZE],
    place: usize,
    memory: &Memory,
) -> Option<Link>
    requires square { Square (fields_in area.words.now) square.now }
    requires remembers { Remembers (run_in area.words.now) memory.now }
    ensures { result ≡ chosen_of (link_at place (links_of (run_in area.entry.words.now))) }
{
    let end = area.sizes.n + 1;
    let mut found = None;
    let Beginning { receiver, mut left } = memory.begin_at(place);
    'scan: for to in receiver..end {
        let held = memory.count_of(to);
        if left < held {
            let first = memory.ranked_in(to, left);
            for from in first..end {
                if links::is_waiting_at(area, square, from, to) {
                    found = Some(Link { from, to });
                    break 'scan;
                }
            }
        } else {
            left -= held;
        }
    }
    found
}

// Delivers the oldest message on a link, and tells what the step sent: 24 if nothing waits there, then 22.
fn deliver_on(
    area: &mut [i32],
    square: &[u16; tables::SQUARE_SIZE],
    sizes: Sizes,
    link: LinkAt,
) -> Result<Delivered, Refusal>
    requires running { Running area.old square.now sizes }
    requires linked { Linked (fields_in area.old) link.from link.to link.at }
    requires numbers { (link.from ≤ sizes.n) × (link.to ≤ sizes.n) }
    ensures told { result ≡ told_at (run_in area.old) link.from link.to 1 }
    ensures area_after { area.new ≡ keeping area.old (deliver_at (run_in area.old) link.from link.to 1).run }
{
    let first = link.to * tables::SIDE;
    let cells = &square[..];
    let row = &cells[first..first + tables::SIDE];
    delivering::deliver_and_tell(area, row, sizes, link, links::OLDEST)
}

// Delivers the oldest message on the link that the state points to, among the links with a message (02, N13): 24 if nothing waits on any link,
// then 22. State 0 points to the first. The area stays ready and the array what is remembered of it, so the next delivery may follow.
pub fn deliver_drawn(
    area: &mut [i32],
    square: &[u16; tables::SQUARE_SIZE],
    sizes: Sizes,
    state: u32,
    memory: &mut Memory,
) -> Result<ChosenDelivery, Refusal>
    requires running { Running area.old square.now sizes }
    requires remembers { Remembers (run_in area.old) memory.old }
    ensures told { result ≡ chosen_answer (drawn state (run_in area.old)) (drawn_of state (run_in area.old)).answer }
    ensures area_after { area.new ≡ keeping area.old (drawn_of state (run_in area.old)).run }
    ensures remembers_after { Remembers (run_in area.new) memory.new }
    ensures running_after { Running area.new square.now sizes }
{
    let place = memory.place_of(state);
    let Some(Link { from, to }) = choose(Tested { words: area, sizes }, square, place, memory)
    else {
        return Err(Refusal::NoMessage);
    };
    let cell = squares::cell_at(square, from, to);
    let link = LinkAt {
        from,
        to,
        at: squares::place(cell),
    };
    let Delivered { message, sent } = deliver_on(area, square, sizes, link)?;
    noting::note(Tested { words: area, sizes }, link, sent, memory);
    Ok(ChosenDelivery { from, to, message })
}

// The same in the fixed order: on the first link with a message.
pub fn deliver_next(
    area: &mut [i32],
    square: &[u16; tables::SQUARE_SIZE],
    sizes: Sizes,
    memory: &mut Memory,
) -> Result<ChosenDelivery, Refusal>
    requires running { Running area.old square.now sizes }
    requires remembers { Remembers (run_in area.old) memory.old }
    ensures told { result ≡ chosen_answer (lowest (run_in area.old)) (next_of (run_in area.old)).answer }
    ensures area_after { area.new ≡ keeping area.old (next_of (run_in area.old)).run }
    ensures remembers_after { Remembers (run_in area.new) memory.new }
    ensures running_after { Running area.new square.now sizes }
{
    deliver_drawn(area, square, sizes, 0, memory)
}
