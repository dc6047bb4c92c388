// What a process sends in a tested area: the probes of a broadcast, or an acknowledgement, on the links that its row names. It is inline for the reason that
// stands at `delivering::deliver_and_tell` (delivery).
ghost use Rattle.std.specs.Prelude.{◌≡◌, true, ◌≤◌};
ghost use Rattle.steps.specs.Step.{reply_fits};
ghost use Rattle.areas.specs.Area.{fields_in, run_in, keeping};
ghost use Rattle.areas.specs.Squares.{Row};
ghost use Rattle.lenses.specs.Ready.{Ready};
ghost use Rattle.link_lenses.specs.Changes.{answered, spread, Answerable, Spreadable};
ghost use Rattle.tables.specs.declared.Chain.{Chain};

use crate::links;
use crate::links::LinkAt;
use areas::squares;
use lenses::chains;
use lenses::tested::Tested;
use steps::{Message, Reply};
use tables::{Chain, Sizes};

// b sends suc to all successors, or pre to all predecessors: those at the far ends of its chain's arcs.
#[inline(always)]
pub fn broadcast(area: &mut [i32], row: &[u16], sizes: Sizes, c: Chain, b: usize)
    requires ready { Ready area.old sizes }
    requires is_process { (1 ≤ b) × (b ≤ sizes.n) }
    requires row { Row (fields_in area.old) b row.now }
    requires spreadable { Spreadable c (run_in area.old) sizes.n b }
    ensures { area.new ≡ keeping area.old (spread c (run_in area.old) b) }
{
    let mut k = Tested { words: area, sizes }.first(c, b);
    // Stays: an iterator over the arcs would hold the area, which changes between two of them.
    while k != 0 {
        let arc = Tested { words: area, sizes }.arc(k);
        let q = chains::far_of(c, arc);
        let at = squares::place(squares::cell_of(row, q));
        links::push(area, sizes, LinkAt { from: b, to: q, at }, Message::from(c));
        k = table_reader::next_of(c, arc);
    }
}

// b sends the acknowledgement of its step, if there is one.
#[inline(always)]
pub fn acknowledge(area: &mut [i32], row: &[u16], sizes: Sizes, b: usize, reply: Option<Reply>)
    requires ready { Ready area.old sizes }
    requires is_process { (1 ≤ b) × (b ≤ sizes.n) }
    requires row { Row (fields_in area.old) b row.now }
    requires fits { reply_fits reply ≡ true }
    requires answerable { Answerable (run_in area.old) sizes.n b reply }
    ensures { area.new ≡ keeping area.old (answered (run_in area.old) b reply) }
{
    if let Some(reply) = reply {
        let to = reply.to as usize;
        let at = squares::place(squares::cell_of(row, to));
        links::push(
            area,
            sizes,
            LinkAt { from: b, to, at },
            Message::Ack(reply.counts),
        );
    }
}
