// One link in a tested area, by the word at which it begins: whether a message waits there, whether so many slots are free, the message at a place,
// that one off it, one more behind them.
ghost use Rattle.std.specs.Prelude.{◌≡◌, true, ◌+◌, ◌≤◌, leb, length};
ghost use Rattle.steps.specs.Step.{count_small};
ghost use Rattle.machine.specs.Calls.{waiting};
ghost use Rattle.areas.specs.Used.{link_slots};
ghost use Rattle.areas.specs.Area.{fields_in, run_in, keeping};
ghost use Rattle.areas.specs.Squares.{Linked, Square};
ghost use Rattle.lenses.specs.Ready.{Ready};
ghost use Rattle.link_lenses.specs.Standing.{standing};
ghost use Rattle.link_lenses.specs.Changes.{pushed_on, HasSlot, off};

use areas::{places, squares, words};
use lenses::tested::Tested;
use refusals::Refusal;
use steps::Message;
use tables::Sizes;

// The place of the oldest message on a link.
pub const OLDEST: usize = 1;

// A link: who sends, who receives, and the word at which it begins.
#[derive(Clone, Copy, PartialEq, Eq, Default)]
pub struct LinkAt {
    pub from: usize,
    pub to: usize,
    pub at: usize,
}

// Whether a message waits on the link.
pub fn is_waiting(area: Tested, link: LinkAt) -> bool
    requires { Linked (fields_in area.words.now) link.from link.to link.at }
    ensures { result ≡ waiting ((run_in area.entry.words.now).link link.from link.to) }
{
    area.words[link.at] != 0
}

// The same by the square, for any two processes: nothing waits between those who are no neighbours.
pub fn is_waiting_at(area: Tested, square: &[u16; tables::SQUARE_SIZE], a: usize, b: usize) -> bool
    requires square { Square (fields_in area.words.now) square.now }
    requires numbers { (a ≤ area.sizes.n) × (b ≤ area.sizes.n) }
    ensures { result ≡ waiting ((run_in area.entry.words.now).link a b) }
{
    let cell = squares::cell_at(square, a, b);
    cell != 0
        && is_waiting(
            area,
            LinkAt {
                from: a,
                to: b,
                at: squares::place(cell),
            },
        )
}

// Whether so many more messages find room on the link.
pub fn has_free(area: Tested, link: LinkAt, free: usize) -> bool
    requires linked { Linked (fields_in area.words.now) link.from link.to link.at }
    requires some_slots { (1 ≤ free) × (free ≤ link_slots) }
    ensures { result ≡ leb (length ((run_in area.entry.words.now).link link.from link.to) + free) link_slots }
{
    area.words[link.at + (places::LINK_SLOTS - free)] == 0
}

// What waits at a place of the link, 1 for the oldest message: 24 if nothing waits on the link, then 31 if no message is at that place.
pub fn at_place(area: Tested, link: LinkAt, place: usize) -> Result<Message, Refusal>
    requires { Linked (fields_in area.words.now) link.from link.to link.at }
    ensures { result ≡ standing place ((run_in area.entry.words.now).link link.from link.to) }
{
    if area.words[link.at] == 0 {
        return Err(Refusal::NoMessage);
    }
    if place == 0 || place > places::LINK_SLOTS {
        return Err(Refusal::Place); // no link has such a place
    }
    let word = area.words[link.at + (place - 1)];
    if word == 0 {
        return Err(Refusal::Place); // fewer messages wait
    }
    Ok(words::message_of(word))
}

// Takes the message at a place off the link; those behind it move up.
pub fn take(area: &mut [i32], sizes: Sizes, link: LinkAt, place: usize)
    requires ready { Ready area.old sizes }
    requires linked { Linked (fields_in area.old) link.from link.to link.at }
    requires is_slot { (1 ≤ place) × (place ≤ link_slots) }
    ensures { area.new ≡ keeping area.old (off (run_in area.old) link.from link.to place) }
{
    words::take_off(area, link.at + place - 1, link.at + places::LINK_SLOTS);
}

// Puts a message on the link, behind those that wait there.
pub fn push(area: &mut [i32], sizes: Sizes, link: LinkAt, message: Message)
    requires ready { Ready area.old sizes }
    requires linked { Linked (fields_in area.old) link.from link.to link.at }
    requires small_counts { count_small message ≡ true }
    requires has_slot { HasSlot (run_in area.old) link.from link.to }
    ensures { area.new ≡ keeping area.old (pushed_on (run_in area.old) link.from link.to message) }
{
    words::put_on(area, link.at, places::LINK_SLOTS, words::code_of(message));
}
