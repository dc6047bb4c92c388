// The delivery of one message in a tested area: refused with nothing changed, or carried out.
ghost use Rattle.std.specs.Prelude.{◌≡◌, true, ◌≤◌};
ghost use Rattle.tables.specs.Waits.{neighbours};
ghost use Rattle.steps.specs.Step.{count_small};
ghost use Rattle.areas.specs.Area.{fields_in, run_in, keeping};
ghost use Rattle.areas.specs.Squares.{Linked, Row};
ghost use Rattle.lenses.specs.Ready.{Ready};
ghost use Rattle.delivery.specs.Delivering.{PreparedFor, prepared_of, told_at, deliver_at};

use lenses::tested::Tested;
use link_lenses::links;
use link_lenses::links::LinkAt;
use preparing::{rooms, stepping};
use refusals::Refusal;
use steps::{Message, Sent, Turn};
use tables::Sizes;

// A delivery before anything is changed: the message, and what the receiver's step leaves and sends.
#[derive(Clone, Copy, PartialEq, Eq)]
struct Prepared {
    message: Message,
    turn: Turn,
}

// A delivery that was made: the message, and what the receiver's step sent.
#[derive(Clone, Copy, PartialEq, Eq)]
pub struct Delivered {
    pub message: Message,
    pub sent: Sent,
}

// The delivery of a message from a to b, which are neighbours, before anything is changed: 22, or what the receiver's step leaves and sends.
#[inline(always)]
fn prepare_message(
    area: Tested,
    row: &[u16],
    a: usize,
    b: usize,
    message: Message,
) -> Result<Prepared, Refusal>
    requires row { Row (fields_in area.words.now) b row.now }
    requires neighbours { neighbours (run_in area.words.now).waits a b ≡ true }
    requires numbers { (a ≤ area.sizes.n) × (b ≤ area.sizes.n) }
    requires small_counts { count_small message ≡ true }
    ensures { PreparedFor area.entry.words.now a b message result }
{
    let turn = stepping::step_at(area, a, b, message)?;
    if area.count() >= checks::MOST_DELIVERIES {
        return Err(Refusal::OutOfRange);
    }
    if !rooms::has_room(area, row, a, b, turn.sent) {
        return Err(Refusal::OutOfRange);
    }
    Ok(Prepared { message, turn })
}

// The delivery of the message at a place of a link, before anything is changed: 24 if nothing waits there, then 31 if no message is at that
// place, then 22, and else what the receiver's step leaves and sends.
#[inline(always)]
fn prepare(area: Tested, row: &[u16], link: LinkAt, place: usize) -> Result<Prepared, Refusal>
    requires row { Row (fields_in area.words.now) link.to row.now }
    requires linked { Linked (fields_in area.words.now) link.from link.to link.at }
    requires numbers { (link.from ≤ area.sizes.n) × (link.to ≤ area.sizes.n) }
    ensures { result ≡ prepared_of (run_in area.entry.words.now) link.from link.to place ((run_in area.entry.words.now).link link.from link.to) }
{
    let message = links::at_place(area, link, place)?;
    prepare_message(area, row, link.from, link.to, message)
}

// Delivers the message at a place of a link, and tells what the step sent: 24 if nothing waits there, then 31, 22. It has two callers, and stands inline in
// both, with all that it goes through down to the leaves: else the compiler puts it into neither, and what was sent goes through memory at every delivery.
#[inline(always)]
pub fn deliver_and_tell(
    area: &mut [i32],
    row: &[u16],
    sizes: Sizes,
    link: LinkAt,
    place: usize,
) -> Result<Delivered, Refusal>
    requires ready { Ready area.old sizes }
    requires row { Row (fields_in area.old) link.to row.now }
    requires linked { Linked (fields_in area.old) link.from link.to link.at }
    requires numbers { (link.from ≤ sizes.n) × (link.to ≤ sizes.n) }
    ensures told { result ≡ told_at (run_in area.old) link.from link.to place }
    ensures area_after { area.new ≡ keeping area.old (deliver_at (run_in area.old) link.from link.to place).run }
{
    let Prepared { message, turn } = prepare(Tested { words: area, sizes }, row, link, place)?;
    carrying::carry_out(area, row, sizes, link, place, turn);
    Ok(Delivered {
        message,
        sent: turn.sent,
    })
}

// The same, told by its message alone.
pub fn deliver(
    area: &mut [i32],
    row: &[u16],
    sizes: Sizes,
    link: LinkAt,
    place: usize,
) -> Result<Message, Refusal>
    requires ready { Ready area.old sizes }
    requires row { Row (fields_in area.old) link.to row.now }
    requires linked { Linked (fields_in area.old) link.from link.to link.at }
    requires numbers { (link.from ≤ sizes.n) × (link.to ≤ sizes.n) }
    ensures told { result ≡ (deliver_at (run_in area.old) link.from link.to place).answer }
    ensures area_after { area.new ≡ keeping area.old (deliver_at (run_in area.old) link.from link.to place).run }
{
    let delivered = deliver_and_tell(area, row, sizes, link, place)?;
    Ok(delivered.message)
}
