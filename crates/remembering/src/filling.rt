// What is remembered of a run, from the area alone: nothing at first, then arc by arc.
ghost use Rattle.std.specs.Prelude.{◌≡◌};
ghost use Rattle.tables.specs.Table.{IsProcess};
ghost use Rattle.areas.specs.Area.{fields_in, run_in};
ghost use Rattle.areas.specs.Squares.{Square};
ghost use Rattle.marks.specs.Changes.{Turns};
ghost use Rattle.remembering.specs.Memory.{Remembers};
ghost use Rattle.remembering.specs.Noting.{looked_marks};

use lenses::tested::Tested;
use link_lenses::links;
use marks::Memory;

// Marks the link from a to b if it holds a message.
fn look(area: Tested, square: &[u16; tables::SQUARE_SIZE], a: usize, b: usize, memory: &mut Memory)
    requires square { Square (fields_in area.words.now) square.now }
    requires ends { IsProcess area.sizes.n a × IsProcess area.sizes.n b }
    ensures { Turns memory.old (looked_marks (run_in area.entry.words.now) a b) memory.new }
{
    if links::is_waiting_at(area, square, a, b) {
        memory.mark(a, b);
    }
}

// All links, whatever was remembered before: each stands with an arc. It is filled where the caller holds it: handed back by value, it takes as much of
// the stack again at each call.
pub fn fill(area: Tested, square: &[u16; tables::SQUARE_SIZE], memory: &mut Memory)
    requires { Square (fields_in area.words.now) square.now }
    ensures { Remembers (run_in area.entry.words.now) memory.new }
{
    memory.clear();
    for k in 1..=area.sizes.m {
        let arc = area.arc(k);
        look(area, square, arc.from, arc.to, memory);
        look(area, square, arc.to, arc.from, memory);
    }
}
