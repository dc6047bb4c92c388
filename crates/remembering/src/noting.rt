// How what is remembered follows a delivery, part by part, once it is made: first what was taken, then what was sent, which marks its link
// whether a message was there or not.
ghost use Rattle.std.specs.Prelude.{◌≡◌, Some};
ghost use Rattle.tables.specs.Table.{most_processes, IsProcess};
ghost use Rattle.tables.specs.Chains.{joins};
ghost use Rattle.steps.specs.declared.Reply.{Reply};
ghost use Rattle.machine.specs.Calls.{waiting};
ghost use Rattle.areas.specs.Area.{fields_in, run_in};
ghost use Rattle.areas.specs.Squares.{Linked};
ghost use Rattle.preparing.specs.Receiving.{probes_go, reply_goes};
ghost use Rattle.marks.specs.Changes.{MarkedAt, Turns};
ghost use Rattle.remembering.specs.Noting.{taken_marks, sent_marks, noted_marks};

use lenses::chains;
use lenses::tested::Tested;
use link_lenses::links;
use link_lenses::links::LinkAt;
use marks::Memory;
use steps::{Probes, Reply, Sent};
use tables::Chain;

// A message has come off the link, which has fallen empty if it was the last one.
fn note_taken(area: Tested, link: LinkAt, memory: &mut Memory)
    requires linked { Linked (fields_in area.words.now) link.from link.to link.at }
    requires ends { IsProcess area.sizes.n link.from × IsProcess area.sizes.n link.to }
    requires marked_at { MarkedAt memory.old link.from link.to }
    ensures { Turns memory.old (taken_marks (waiting ((run_in area.entry.words.now).link link.from link.to)) link.from link.to) memory.new }
{
    if !links::is_waiting(area, link) {
        memory.unmark(link.from, link.to);
    }
}

// b's acknowledgement has gone out, if there is one.
fn note_reply(b: usize, reply: Option<Reply>, memory: &mut Memory)
    requires sender { IsProcess most_processes b }
    requires receiver { (y : Reply) → reply ≡ Some y → IsProcess most_processes y.to }
    ensures { Turns memory.old (λ held. sent_marks held b (reply_goes reply)) memory.new }
{
    if let Some(reply) = reply {
        memory.mark(b, reply.to as usize);
    }
}

// b's probes have gone out along a chain.
fn note_chain(area: Tested, c: Chain, b: usize, memory: &mut Memory)
    requires { IsProcess area.sizes.n b }
    ensures { Turns memory.old (λ held. sent_marks held b (joins c (run_in area.entry.words.now).waits b)) memory.new }
{
    let mut k = area.first(c, b);
    // Stays: an iterator over the arcs is no plainer: a struct of four fields and three ghost members, whose state would stand in each invariant.
    while k != 0 {
        let arc = area.arc(k);
        memory.mark(b, chains::far_of(c, arc));
        k = table_reader::next_of(c, arc);
    }
}

// b's probes have gone out, if there are any.
fn note_probes(area: Tested, b: usize, probes: Probes, memory: &mut Memory)
    requires { IsProcess area.sizes.n b }
    ensures { Turns memory.old (λ held. sent_marks held b (probes_go (run_in area.entry.words.now).waits probes b)) memory.new }
{
    match probes {
        Probes::Nothing => {}
        Probes::Sucs => note_chain(area, Chain::Out, b, memory),
        Probes::Pres => note_chain(area, Chain::In, b, memory),
    }
}

// What a delivery on the link has left in the area, whose receiver's step sent so much.
pub fn note(area: Tested, link: LinkAt, sent: Sent, memory: &mut Memory)
    requires linked { Linked (fields_in area.words.now) link.from link.to link.at }
    requires ends { IsProcess area.sizes.n link.from × IsProcess area.sizes.n link.to }
    requires receiver { (y : Reply) → sent.reply ≡ Some y → IsProcess most_processes y.to }
    requires marked_at { MarkedAt memory.old link.from link.to }
    ensures { Turns memory.old (noted_marks (run_in area.entry.words.now) link.from link.to sent.probes sent.reply) memory.new }
{
    note_taken(area, link, memory);
    note_reply(link.to, sent.reply, memory);
    note_probes(area, link.to, sent.probes, memory);
}
