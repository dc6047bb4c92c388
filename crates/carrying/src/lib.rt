// A delivery carried out: the changes that a step makes in a tested run area, one after another. The crate `delivery` makes its tests before. It is inline
// for the reason that stands at `delivering::deliver_and_tell` there.
#![tactic(auto)]

ghost use Rattle.std.specs.Prelude.{◌≡◌, ◌+◌, ◌≤◌};
ghost use Rattle.areas.specs.Area.{fields_in, run_in, keeping};
ghost use Rattle.areas.specs.Squares.{Linked, Row};
ghost use Rattle.lenses.specs.Ready.{Ready};
ghost use Rattle.preparing.specs.Receiving.{probes_of};
ghost use Rattle.carrying.specs.Carrying.{spread_by, carried_out, Carried};
ghost use Rattle.tables.specs.declared.Chain.{Chain};
ghost use Rattle.link_lenses.specs.Changes.{Spreadable};

use lenses::tested::Tested;
use lenses::{heading, records};
use link_lenses::links::LinkAt;
use link_lenses::{links, sending};
use steps::{Probes, Turn};
use tables::{Chain, Sizes};

// b sends the probes of its step, if there are any.
#[inline(always)]
fn send(area: &mut [i32], row: &[u16], sizes: Sizes, b: usize, probes: Probes)
    requires ready { Ready area.old sizes }
    requires is_process { (1 ≤ b) × (b ≤ sizes.n) }
    requires row { Row (fields_in area.old) b row.now }
    requires spreadable { (c : Chain) → probes ≡ probes_of c → Spreadable c (run_in area.old) sizes.n b }
    ensures { area.new ≡ keeping area.old (spread_by probes (run_in area.old) b) }
{
    match probes {
        Probes::Nothing => {}
        Probes::Sucs => sending::broadcast(area, row, sizes, Chain::Out, b),
        Probes::Pres => sending::broadcast(area, row, sizes, Chain::In, b),
    }
}

// The receiver's step has been taken: the message comes off its link, the record changes, and the step's messages go out.
#[inline(always)]
pub fn carry_out(
    area: &mut [i32],
    row: &[u16],
    sizes: Sizes,
    link: LinkAt,
    place: usize,
    turn: Turn,
)
    requires ready { Ready area.old sizes }
    requires row { Row (fields_in area.old) link.to row.now }
    requires linked { Linked (fields_in area.old) link.from link.to link.at }
    requires carried { Carried (run_in area.old) link.from link.to place turn.process turn.sent.probes turn.sent.reply }
    ensures { area.new ≡ keeping area.old (carried_out (run_in area.old) link.from link.to place turn.process turn.sent.probes turn.sent.reply) }
{
    links::take(area, sizes, link, place);
    records::put_process(area, sizes, link.to, turn.process);
    sending::acknowledge(area, row, sizes, link.to, turn.sent.reply);
    send(area, row, sizes, link.to, turn.sent.probes);
    let count = Tested { words: area, sizes }.count();
    heading::put_count(area, sizes, count + 1);
}
