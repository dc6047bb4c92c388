// A walk along one chain (01, "Wait table"): it carries the table that it reads and the arc that it has come to. Callers that hold no walk
// have `next_from` and `stand_after`. An opening is refused by the rows 1 to 8. It stands on `refusals`, `tables` and `table_reader`.
#![tactic(auto)]

ghost use Rattle.std.specs.Prelude.{◌≡◌};
ghost use Rattle.tables.specs.Walking.{next_of};
ghost use Rattle.walks.specs.Walk.{opened_walk, gives, stepped_walk, stood_after};

use tables::Chain;

// The table, the chain that is followed, the arc that the walk stands at, 0 if at none, and the number of the opening's refusal, 0 if it was accepted.
// Stays: a number for the refusal, here and in `Stood`: what may not change needs it, `step` and `next_arc` take a walk with any number.
#[derive(Clone, Copy)]
pub struct Walk<'a> {
    pub table: &'a [u8],
    pub chain: Chain,
    pub arc: usize,
    pub number: u32,
}

// What is seen of a walk after some steps: the number of its opening, the arc that it stands at, what the next step gives, and the arc that
// it stands at then.
#[derive(Clone, Copy, PartialEq, Eq)]
pub struct Stood {
    pub number: u32,
    pub arc: usize,
    pub next: Option<usize>,
    pub then: usize,
}

// "Opening it names a process and its out- or in-chain, checks 1 to 7, then 8 for that process, and stands at the chain's first arc, or 0
// if it has none." A walk whose opening was refused stands at 0.
pub fn open_walk<'a>(table: &'a [u8], chain: Chain, p: usize) -> Walk<'a>
    ensures { result ≡ opened_walk table.entry chain p }
{
    let opened = table_reader::open(table, chain, p);
    Walk {
        table,
        chain,
        arc: opened.unwrap_or(0),
        number: refusals::number_of(&opened),
    }
}

// What a step would give; the walk stays where it is.
pub fn next_arc<'a>(w: Walk<'a>) -> Option<usize>
    ensures { result ≡ gives w.entry }
{
    table_reader::next(w.table, w.chain, w.arc)
}

// "Steps keep to the chain named. A step gives the next arc or the end": the walk moves there, and stands at 0 from the end on.
pub fn step<'s, 'a>(w: &'s mut Walk<'a>) -> Option<usize>
    ensures { (result ≡ gives w.old) × (w.new ≡ stepped_walk w.old) }
{
    let next = table_reader::next(w.table, w.chain, w.arc);
    w.arc = next.unwrap_or(0);
    next
}

// The same for callers that hold no walk: what a step gives from an arc.
pub fn next_from(table: &[u8], chain: Chain, arc: usize) -> Option<usize>
    ensures { result ≡ next_of table.now chain arc }
{
    next_arc(Walk {
        table,
        chain,
        arc,
        number: 0,
    })
}

// A whole walk for callers that hold none: it is opened, makes that many steps, and one more. A step past the end stays at 0.
pub fn stand_after(table: &[u8], chain: Chain, p: usize, steps: u16) -> Stood
    ensures { result ≡ stood_after steps (opened_walk table.entry chain p) }
{
    let mut w = open_walk(table, chain, p);
    for _ in 0..steps {
        step(&mut w);
    }
    let arc = w.arc;
    let next = step(&mut w);
    Stood {
        number: w.number,
        arc,
        next,
        then: w.arc,
    }
}
