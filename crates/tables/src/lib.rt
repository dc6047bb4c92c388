// Wait tables (01, "Wait table"): what a table is (specs), its sizes and the largest of them, and the one test of a process. The
// crate `table_reader` reads and follows tables, `table_writer` writes them. Its definitions name the refusals of the crate `refusals`.
#![tactic(auto)]

ghost use Rattle.std.specs.Prelude.{◌≡◌};
ghost use Rattle.tables.specs.Table.{SizesFit, sizes_fit, table_length, is_process};

// The largest N.
pub const MOST_PROCESSES: usize = 128;

// The largest M.
pub const MOST_ARCS: usize = 512;

// A square of pairs of ends: a row for each process and one for 0, and as many columns.
pub const SIDE: usize = MOST_PROCESSES + 1;

// All its cells.
pub const SQUARE_SIZE: usize = SIDE * SIDE;

// The two chains of a process.
#[derive(Clone, Copy, PartialEq, Eq)]
pub enum Chain {
    Out,
    In,
}

// An arc record of a table.
#[derive(Clone, Copy, PartialEq, Eq)]
pub struct Arc {
    pub from: usize,
    pub to: usize,
    pub next_out: usize,
    pub next_in: usize,
}

// The sizes of a table: N, its processes, and M, its arcs.
#[derive(Clone, Copy, PartialEq, Eq, Default)]
pub struct Sizes {
    pub n: usize,
    pub m: usize,
}

impl Sizes {
    // N and M are in their ranges.
    pub fn fit(self) -> bool
        ensures { result ≡ sizes_fit self.n self.m }
    {
        1 <= self.n && self.n <= MOST_PROCESSES && self.m <= MOST_ARCS
    }

    // How many bytes a table of these sizes has.
    pub fn table_length(self) -> usize
        requires { SizesFit self.n self.m }
        ensures { result ≡ table_length self.n self.m }
    {
        4 + 4 * self.n + 8 * self.m
    }
}

// p is one of n processes.
#[tactic(auto, unfolding(crate::specs::Table::is_process))]
pub fn is_process(p: usize, n: usize) -> bool
    ensures { result ≡ is_process n p }
{
    1 <= p && p <= n
}
