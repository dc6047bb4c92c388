// The families of cases: which graphs are tried, from which starts, and in how many runs.
use crate::graphs::{Layout, Shape};
use crate::waits::Waits;
use crate::{graphs, numbers};

// Which graphs a family has.
#[derive(Clone, Copy)]
pub enum Graphs {
    // Every one of n processes, from every start.
    Every,
    // Drawn ones, of 2 to n processes and 1 to m waits,
    UpTo { m: usize },
    // or of n processes and m waits.
    Full { m: usize },
    // The shapes.
    Shapes,
}

// A family: how many cases, the most processes that one may have, its graphs, and the runs of each.
#[derive(Clone, Copy)]
pub struct Family {
    pub cases: usize,
    pub n: usize,
    pub graphs: Graphs,
    pub runs: usize,
}

pub const FAMILIES: [Family; 9] = [
    Family {
        cases: 2,
        n: 1,
        graphs: Graphs::Every,
        runs: 10,
    },
    Family {
        cases: 32,
        n: 2,
        graphs: Graphs::Every,
        runs: 10,
    },
    Family {
        cases: 1536,
        n: 3,
        graphs: Graphs::Every,
        runs: 10,
    },
    Family {
        cases: 2000,
        n: 8,
        graphs: Graphs::UpTo { m: 24 },
        runs: 5,
    },
    Family {
        cases: 800,
        n: 16,
        graphs: Graphs::UpTo { m: 48 },
        runs: 5,
    },
    Family {
        cases: 120,
        n: 40,
        graphs: Graphs::UpTo { m: 120 },
        runs: 5,
    },
    Family {
        cases: 10,
        n: 128,
        graphs: Graphs::UpTo { m: 512 },
        runs: 5,
    },
    Family {
        cases: 3,
        n: 128,
        graphs: Graphs::Full { m: 512 },
        runs: 9,
    },
    Family {
        cases: Shape::ALL.len(),
        n: 128,
        graphs: Graphs::Shapes,
        runs: 9,
    },
];

// A case: N, the start, its waits, and the last random number.
#[derive(Clone, Copy)]
pub struct Case {
    pub n: usize,
    pub start: usize,
    pub waits: Waits,
    pub seed: usize,
}

// A random number of processes or waits, from the least to the most; the most itself where it is below the least or over 1,000.
fn between(least: usize, most: usize, x: usize) -> usize {
    if least > most || most > 1000 {
        return most;
    }
    least + numbers::below(x, most - least + 1) % 1024
}

// Graph k / n of n processes, n at most 3, from one of its starts.
fn numbered(n: usize, k: usize, seed: usize) -> Case {
    let mut waits = Waits::NONE;
    if n == 0 {
        return Case {
            n,
            start: 0,
            waits,
            seed,
        };
    }
    graphs::number(n, k / n, &mut waits);
    Case {
        n,
        start: k % n + 1,
        waits,
        seed,
    }
}

// A drawn graph of n processes and m waits from one start, by a random number.
fn drawn(n: usize, m: usize, k: usize, seed: usize) -> Case {
    let layout = Layout::ALL[k % Layout::ALL.len()];
    let mut waits = Waits::NONE;
    let last = graphs::draw(layout, n, m, seed, &mut waits);
    Case {
        n,
        start: between(1, n, last),
        waits,
        seed: numbers::next(last),
    }
}

// The number of processes of a shape, and the start: some are run from their first process, which is not like the others, and the rest from
// a middle one.
fn shaped(shape: Shape, seed: usize) -> Case {
    let n = match shape {
        Shape::Complete => 22,
        Shape::Row => 40,
        _ => 128,
    };
    let start = match shape {
        Shape::Fan | Shape::Star | Shape::Extreme | Shape::Funnel => 1,
        _ => n / 2,
    };
    let mut waits = Waits::NONE;
    shape.put(n, &mut waits);
    Case {
        n,
        start,
        waits,
        seed,
    }
}

impl Family {
    // Case k + 1, by a random number.
    pub fn case(self, k: usize, seed: usize) -> Case {
        let x = numbers::next(seed);
        let y = numbers::next(x);
        match self.graphs {
            Graphs::Every => numbered(self.n, k, seed),
            Graphs::UpTo { m } => drawn(between(2, self.n, x), between(1, m, y), k, y),
            Graphs::Full { m } => drawn(self.n, m, k, y),
            Graphs::Shapes => shaped(Shape::ALL[k % Shape::ALL.len()], seed),
        }
    }
}
