// What is remembered of the links that hold a message, in an array of numbers: which they are, as sets of processes, how many to each receiver, and
// how many to each group of receivers; marking a link, and finding where the link at a place is to be looked for. Nothing here knows what a run
// is: a test of pairs says which links are marked (`Marks` in specs/).
//
// It stands on `sets`, `tables` and below; it refuses nothing.
#![tactic(auto)]

pub mod parts;

ghost use Rattle.std.specs.Prelude.{◌≡◌, true, false, List, ℕ, ◌≤◌, ◌<◌, ◌^◌, sum};
ghost use Rattle.tables.specs.Table.{most_processes, IsProcess};
ghost use Rattle.sets.specs.Sets.{Ranked};
ghost use Rattle.marks.specs.Marks.{Marks};
ghost use Rattle.marks.specs.Changes.{count_of, counted_up, counted_down, turned};
ghost use Rattle.marks.specs.Changes.{Marked, MarkedAt, Turns, Begins, Held, Points};

use std::marker::Model;

// What is remembered: a clause sees the numbers, and they always hold some marks.
#[derive(Clone, Copy)]
pub struct Memory {
    numbers: [usize; parts::MEMORY_SIZE],
}

impl Model for Memory {
    ghost Value = { List ℕ };

    ghost view = { λ m. m.numbers };

    ghost invariant = { λ m. Marked m.numbers };

    ghost inverse = { λ l. record { numbers = l } };
}

// Where to look for the link at a place: a receiver, and how many links to it and to those after it stand before the place.
#[derive(Clone, Copy, PartialEq, Eq)]
pub struct Beginning {
    pub receiver: usize,
    pub left: usize,
}

// One link more to b holds a message.
fn count_up(numbers: &mut [usize; parts::MEMORY_SIZE], b: usize)
    requires marked { Marked numbers.old }
    requires receiver { IsProcess most_processes b }
    ensures { numbers.new ≡ counted_up numbers.old b }
{
    let at = parts::count_at(b);
    numbers[at] += 1;
    if numbers[at] == 1 {
        sets::add(numbers, 0, b);
    }
}

// One link less to b holds a message.
// Stays: one function for both is no plainer: a flag would choose the sum, the count that is tested, and between adding and striking.
fn count_down(numbers: &mut [usize; parts::MEMORY_SIZE], b: usize)
    requires marked { Marked numbers.old }
    requires receiver { IsProcess most_processes b }
    requires counted { 1 ≤ count_of numbers.old b }
    ensures { numbers.new ≡ counted_down numbers.old b }
{
    let at = parts::count_at(b);
    numbers[at] -= 1;
    if numbers[at] == 0 {
        sets::strike(numbers, 0, b);
    }
}

// The sum of some counts.
fn total(counts: &[usize]) -> usize
    requires { sum counts.now < 2 ^ 64 }
    ensures { result ≡ sum counts.now }
{
    counts.iter().sum()
}

impl Memory {
    // What the numbers say, wherever they were kept.
    pub fn from_numbers(numbers: [usize; parts::MEMORY_SIZE]) -> Self
        requires { Marked numbers }
        ensures { result ≡ numbers }
    {
        Memory { numbers }
    }

    // The numbers, to be kept.
    pub fn numbers(&self) -> [usize; parts::MEMORY_SIZE]
        ensures { result ≡ self.now }
    {
        self.numbers
    }

    // No link holds a message.
    pub fn new() -> Self
        ensures { Marks (λ a b. false) result }
    {
        Memory {
            numbers: [0; parts::MEMORY_SIZE],
        }
    }

    // The link from a to b holds a message, whether it did before or not.
    pub fn mark(&mut self, a: usize, b: usize)
        requires sender { IsProcess most_processes a }
        requires receiver { IsProcess most_processes b }
        ensures { Turns self.old (λ held. turned held a b true) self.new }
    {
        if sets::is_in(&self.numbers, b, a) {
            return;
        }
        count_up(&mut self.numbers, b);
        sets::add(&mut self.numbers, b, a);
        self.numbers[parts::group_at(parts::group_of(b))] += 1;
    }

    // The link from a to b, which held a message, has fallen empty.
    pub fn unmark(&mut self, a: usize, b: usize)
        requires marked_at { MarkedAt self.old a b }
        requires sender { IsProcess most_processes a }
        requires receiver { IsProcess most_processes b }
        ensures { Turns self.old (λ held. turned held a b false) self.new }
    {
        count_down(&mut self.numbers, b);
        sets::strike(&mut self.numbers, b, a);
        self.numbers[parts::group_at(parts::group_of(b))] -= 1;
    }

    // No link holds a message any more.
    pub fn clear(&mut self)
        ensures { Marks (λ a b. false) self.new }
    {
        self.numbers = [0; parts::MEMORY_SIZE];
    }

    // How many links to b hold a message.
    pub fn count_of(&self, b: usize) -> usize
        requires { b ≤ most_processes }
        ensures { result ≡ count_of self.now b }
    {
        self.numbers[parts::count_at(b)]
    }

    // How many links hold a message.
    fn held_in_all(&self) -> usize
        ensures { Held self.now result }
    {
        total(&self.numbers[parts::GROUPS_AT..])
    }

    // The place that a state points to among the links with a message: state 0 to the first, without counting them.
    pub fn place_of(&self, state: u32) -> usize
        ensures { Points self.now state result }
    {
        if state == 0 {
            return 0;
        }
        let held = self.held_in_all();
        if held == 0 {
            return 0;
        }
        state as usize % held
    }

    // The lowest receiver for the first place; for the others that behind the groups whose links all stand before it.
    // Stays: a receiver past all processes if there is none: what may not change needs it, `Begins` (specs/Changes) speaks of a number.
    pub fn begin_at(&self, place: usize) -> Beginning
        ensures { Begins self.now place result.receiver result.left }
    {
        if place == 0 {
            return Beginning {
                receiver: sets::lowest_in(&self.numbers, 0),
                left: 0,
            };
        }
        let mut receiver = 1;
        let mut left = place;
        for count in &self.numbers[parts::GROUPS_AT..] {
            if left < *count {
                break;
            }
            left -= *count;
            receiver += parts::GROUP;
        }
        Beginning { receiver, left }
    }

    // The sender to j that has so many of them below it, if there is one; for j 0 the receiver.
    // Stays: a number past all processes for none: what may not change needs it, `Ranked` (sets, specs/Sets) speaks of a number.
    pub fn ranked_in(&self, j: usize, rank: usize) -> usize
        requires { j ≤ most_processes }
        ensures { Ranked self.now j rank result }
    {
        sets::ranked_in(&self.numbers, j, rank)
    }
}
