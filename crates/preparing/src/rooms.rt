// Room on the receiver's links: whether one would hold a fifth message after the delivery. Only the links on which the step sends something are looked
// at, each by one word.
ghost use Rattle.std.specs.Prelude.{◌≡◌, true, not, ◌&&◌, ◌||◌, ℕ, ◌+◌, ◌≤◌, ◌-◌, eqb, leb, length, Some};
ghost use Rattle.base.specs.Choice.{bit};
ghost use Rattle.base.specs.Sums.{all_to};
ghost use Rattle.tables.specs.Waits.{waits_of, neighbours};
ghost use Rattle.tables.specs.Chains.{joins};
ghost use Rattle.steps.specs.declared.Reply.{Reply};
ghost use Rattle.areas.specs.Used.{link_slots};
ghost use Rattle.areas.specs.Area.{fields_in, run_in};
ghost use Rattle.areas.specs.Squares.{Row};
ghost use Rattle.preparing.specs.Rooms.{room_to};
ghost use Rattle.preparing.specs.Receiving.{probes_go, probes_by, probes_of, reply_goes};

use areas::squares;
use lenses::chains;
use lenses::tested::Tested;
use link_lenses::links;
use link_lenses::links::LinkAt;
use steps::{Probes, Reply, Sent};
use tables::Chain;

// A probe of a broadcast goes to the process whose cell this is.
fn goes_by(probes: Probes, cell: usize) -> bool
    ensures { result ≡ probes_by probes cell }
{
    match probes {
        Probes::Nothing => false,
        Probes::Sucs => squares::joins(Chain::Out, cell),
        Probes::Pres => squares::joins(Chain::In, cell),
    }
}

// An acknowledgement is for q.
fn is_for(reply: Option<Reply>, q: usize) -> bool
    ensures { result ≡ reply_goes reply q }
{
    reply.is_some_and(|reply| reply.to as usize == q)
}

// One message, or two if a test passed.
fn one_or_two(test: bool) -> usize
    ensures { result ≡ 1 + bit test }
{
    if test { 2 } else { 1 }
}

// The link from b to q, which are neighbours, would not hold a fifth message once the message from a to b is off and one or two are sent to q.
fn room_for(area: Tested, row: &[u16], a: usize, b: usize, q: usize, sent: usize) -> bool
    requires row { Row (fields_in area.words.now) b row.now }
    requires is_number { q ≤ area.sizes.n }
    requires are_neighbours { neighbours (waits_of (fields_in area.words.now)) b q ≡ true }
    requires one_or_two { (1 ≤ sent) × (sent ≤ 2) }
    ensures { result ≡ leb (length ((run_in area.entry.words.now).link b q) - bit (eqb b a && eqb q b) + sent) link_slots }
{
    let link = LinkAt {
        from: b,
        to: q,
        at: squares::place(squares::cell_of(row, q)),
    };
    if b != a || q != b {
        return links::has_free(area, link, sent);
    }
    sent == 1 || links::has_free(area, link, sent - 1)
}

// The link on which b acknowledges would not hold a fifth message.
#[inline(always)]
fn reply_has_room(area: Tested, row: &[u16], a: usize, b: usize, sent: Sent) -> bool
    requires row { Row (fields_in area.words.now) b row.now }
    requires reply_near { (y : Reply) → sent.reply ≡ Some y → (1 ≤ y.to) × (y.to ≤ area.sizes.n) × (neighbours (waits_of (fields_in area.words.now)) b y.to ≡ true) }
    ensures { result ≡ all_to area.entry.sizes.n (λ q. not (reply_goes sent.reply q) || room_to (run_in area.entry.words.now) a b sent.probes sent.reply q) }
{
    let Some(reply) = sent.reply else {
        return true;
    };
    let q = reply.to as usize;
    let cell = squares::cell_of(row, q);
    room_for(area, row, a, b, q, one_or_two(goes_by(sent.probes, cell)))
}

// No link on which b sends a probe along a chain would hold a fifth message: only the far ends of the chain's arcs are looked at.
#[inline(always)]
fn chain_has_room(
    area: Tested,
    row: &[u16],
    c: Chain,
    a: usize,
    b: usize,
    reply: Option<Reply>,
) -> bool
    requires row { Row (fields_in area.words.now) b row.now }
    requires is_process { (1 ≤ b) × (b ≤ area.sizes.n) }
    ensures { result ≡ all_to area.entry.sizes.n (λ q. not (joins c (run_in area.entry.words.now).waits b q) || room_to (run_in area.entry.words.now) a b (probes_of c) reply q) }
{
    let mut k = area.first(c, b);
    // Stays: an iterator over the arcs is no plainer: a struct of four fields and three ghost members, whose state would stand in each invariant.
    while k != 0 {
        let arc = area.arc(k);
        let q = chains::far_of(c, arc);
        if !room_for(area, row, a, b, q, one_or_two(is_for(reply, q))) {
            return false;
        }
        k = table_reader::next_of(c, arc);
    }
    true
}

// No link on which b sends a probe would hold a fifth message.
#[inline(always)]
fn probes_have_room(area: Tested, row: &[u16], a: usize, b: usize, sent: Sent) -> bool
    requires row { Row (fields_in area.words.now) b row.now }
    requires is_process { (1 ≤ b) × (b ≤ area.sizes.n) }
    ensures { result ≡ all_to area.entry.sizes.n (λ q. not (probes_go (run_in area.entry.words.now).waits sent.probes b q) || room_to (run_in area.entry.words.now) a b sent.probes sent.reply q) }
{
    match sent.probes.chain() {
        None => true,
        Some(c) => chain_has_room(area, row, c, a, b, sent.reply),
    }
}

// No link from b would hold a fifth message: only those on which the step sends something are looked at, since every other has room.
#[inline(always)]
pub fn has_room(area: Tested, row: &[u16], a: usize, b: usize, sent: Sent) -> bool
    requires row { Row (fields_in area.words.now) b row.now }
    requires is_process { (1 ≤ b) × (b ≤ area.sizes.n) }
    requires reply_near { (y : Reply) → sent.reply ≡ Some y → (1 ≤ y.to) × (y.to ≤ area.sizes.n) × (neighbours (waits_of (fields_in area.words.now)) b y.to ≡ true) }
    ensures { result ≡ all_to area.entry.sizes.n (room_to (run_in area.entry.words.now) a b sent.probes sent.reply) }
{
    reply_has_room(area, row, a, b, sent) && probes_have_room(area, row, a, b, sent)
}
