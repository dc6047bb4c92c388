// The wait graphs that are tried.
use crate::numbers;
use crate::waits::Waits;

// How the waits of a drawn graph lie.
#[derive(Clone, Copy, PartialEq, Eq)]
pub enum Layout {
    // Anywhere.
    Anywhere,
    // Each for the process itself or one of a higher number, so that no two processes reach each other.
    Rising,
    // Each for one of the next eight in the ring of numbers.
    Near,
}

impl Layout {
    // In the order in which the graphs of a family take them, in turn.
    pub const ALL: [Layout; 3] = [Layout::Anywhere, Layout::Rising, Layout::Near];

    // For whom a process waits, by a random number.
    fn awaited(self, n: usize, from: usize, x: usize) -> usize {
        if from > n || n > 128 {
            return from;
        }
        match self {
            Layout::Anywhere => process(x, n),
            Layout::Rising => from + numbers::below(x, n - from + 1) % 128,
            Layout::Near => process(from + x % 8, n),
        }
    }
}

// One of n processes by a random number.
fn process(x: usize, n: usize) -> usize {
    1 + numbers::below(x, n) % 128
}

// Draws m waits of n processes, or as many as it can, into a list; gives the last random number.
pub fn draw(layout: Layout, n: usize, m: usize, seed: usize, waits: &mut Waits) -> usize {
    let mut x = seed;
    for _ in 0..4096usize {
        if waits.count() >= m {
            break;
        }
        let y = numbers::next(x);
        x = numbers::next(y);
        let from = process(y, n);
        waits.put(from, layout.awaited(n, from, x));
    }
    x
}

// The largest N: no process beyond it is drawn, whatever n is, so that the work is bounded.
const MOST: usize = 128;

// Puts the graph of n processes, at most 3, with that number into a list: its binary digits say which of the n times n pairs are waits.
pub fn number(n: usize, number: usize, waits: &mut Waits) {
    let mut rest = number;
    for from in 1..=n.min(MOST) {
        for to in 1..=n.min(MOST) {
            if rest % 2 == 1 {
                waits.put(from, to);
            }
            rest /= 2;
        }
    }
}

// Graphs of one shape.
#[derive(Clone, Copy, PartialEq, Eq)]
pub enum Shape {
    // A ring.
    Ring,
    // A path.
    Path,
    // 1 waits for all.
    Fan,
    // 1 waits for all, and all for 1.
    Star,
    // Neighbours in a row wait for each other, and each process for itself.
    Row,
    // All wait for all.
    Complete,
    // Each process waits for itself.
    Loops,
    // A ring of the first half, one of the second half, and a wait from the first for the second.
    TwoRings,
    // 1 and 2 wait for each other, 1 for 3, 3 for all after it, and those for 2: counts of 127 and -127 occur from 1 if the pre waits long.
    Extreme,
    // A path from the last process down to the first: in every order the lowest of those who do not reach the start is reached last (02, N1).
    Falling,
    // 1 waits for 2, and 2 for all after it, who wait for nobody: from 1 a second count of 126 occurs (02, N3).
    Funnel,
}

impl Shape {
    // In the order in which they are tried.
    pub const ALL: [Shape; 11] = [
        Shape::Ring,
        Shape::Path,
        Shape::Fan,
        Shape::Star,
        Shape::Row,
        Shape::Complete,
        Shape::Loops,
        Shape::TwoRings,
        Shape::Extreme,
        Shape::Falling,
        Shape::Funnel,
    ];

    // Whether a process waits for another in a shape of n processes.
    fn is_wait(self, n: usize, from: usize, to: usize) -> bool {
        match self {
            Shape::Ring => is_next(n, from, to),
            Shape::Path => is_one_more(from, to),
            Shape::Fan => from == 1,
            Shape::Star => from == 1 || to == 1,
            Shape::Row => from.abs_diff(to) < 2,
            Shape::Complete => true,
            Shape::Loops => from == to,
            Shape::TwoRings => is_in_rings(n, from, to),
            Shape::Extreme => match from {
                1 => to == 2 || to == 3,
                2 => to == 1,
                3 => to > 3,
                _ => to == 2,
            },
            Shape::Falling => is_one_more(to, from),
            Shape::Funnel => match from {
                1 => to == 2,
                2 => to > 2,
                _ => false,
            },
        }
    }

    // Puts the graph of this shape, of n processes, into a list.
    pub fn put(self, n: usize, waits: &mut Waits) {
        for from in 1..=n.min(MOST) {
            for to in 1..=n.min(MOST) {
                if self.is_wait(n, from, to) {
                    waits.put(from, to);
                }
            }
        }
    }
}

// Whether q comes after p.
fn is_one_more(p: usize, q: usize) -> bool {
    q > p && q - p == 1
}

// Whether q comes after p in the ring of n processes.
fn is_next(n: usize, p: usize, q: usize) -> bool {
    if p == n { q == 1 } else { is_one_more(p, q) }
}

fn is_in_rings(n: usize, from: usize, to: usize) -> bool {
    let half = n / 2;
    if from == half {
        to == 1 || is_one_more(half, to)
    } else if from == n {
        is_one_more(half, to)
    } else {
        is_one_more(from, to)
    }
}
