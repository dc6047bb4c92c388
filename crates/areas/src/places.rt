// The numbers of the area's layout (docs/LAYOUT.md), and the addresses made of them: specs/Places and specs/Used in code.
ghost use Rattle.std.specs.Prelude.{◌≡◌, ◌+◌, ◌*◌, ◌≤◌};
ghost use Rattle.tables.specs.Table.{most_processes, most_arcs, field_total};
ghost use Rattle.areas.specs.Places.{field_place, record_start, link_start, area_length};

use tables::Sizes;

// The words before the table that are in use: which check and which layout, the start, the accepted deliveries, the edition.
pub const CHECK: usize = 0;

pub const KNOT_CHECK: i32 = 2; // 1 in areas from before second sums (02, N3)

pub const START: usize = 1;

pub const COUNT: usize = 2;

pub const EDITION: usize = 3;

pub const HEAD_USED: usize = EDITION + 1;

pub const HEAD_SIZE: usize = 14;

// N and M, the first fields of the copied table, and the words up to them.
pub const N_PLACE: usize = HEAD_SIZE;

pub const M_PLACE: usize = HEAD_SIZE + 1;

pub const SIZES_END: usize = HEAD_SIZE + 2;

// A record of a process: its words that are in use, from its first on, how many these are, and all its words.
pub const FLAGS: usize = 0;

pub const CS: usize = 1;

pub const NUM: usize = 2;

pub const FATHER: usize = 3;

pub const SECOND: usize = 4;

pub const RECORD_USED: usize = SECOND + 1;

pub const RECORD_SIZE: usize = 6;

// A link: words for messages, and all its words; an arc has two.
pub const LINK_SLOTS: usize = checks::MOST_WAITING;

pub const LINK_SIZE: usize = 8;

pub const ARC_SIZE: usize = LINK_SIZE + LINK_SIZE;

// In the word of an acknowledgement each of its two counts stands as a number that is so much more, the second one so many times.
pub const COUNT_ZERO: i32 = 256;

pub const COUNT_SIZE: u32 = 512;

// The bytes of the largest table.
pub const MOST_BYTES: usize = 2 * (2 + 2 * tables::MOST_PROCESSES + 4 * tables::MOST_ARCS);

// The words of the largest area.
pub const MOST_WORDS: usize = 16 + 8 * tables::MOST_PROCESSES + 20 * tables::MOST_ARCS;

// How many fields a table has.
pub fn field_total(sizes: Sizes) -> usize
    requires { (sizes.n ≤ most_processes) × (sizes.m ≤ most_arcs) }
    ensures { result ≡ field_total sizes.n sizes.m }
{
    2 + 2 * sizes.n + 4 * sizes.m
}

// The word of field j.
pub fn field_place(j: usize) -> usize
    requires { j ≤ field_total most_processes most_arcs }
    ensures { result ≡ field_place j }
{
    HEAD_SIZE + j
}

// The first word of the record of p.
pub fn record_start(sizes: Sizes, p: usize) -> usize
    requires sizes_right { (sizes.n ≤ most_processes) × (sizes.m ≤ most_arcs) }
    requires process { (1 ≤ p) × (p ≤ most_processes) }
    ensures { result ≡ record_start sizes.n sizes.m p }
{
    HEAD_SIZE + field_total(sizes) + RECORD_SIZE * (p - 1)
}

// The first word of the links of arc k.
pub fn link_start(sizes: Sizes, k: usize) -> usize
    requires sizes_right { (sizes.n ≤ most_processes) × (sizes.m ≤ most_arcs) }
    requires arc { (1 ≤ k) × (k ≤ 65535) }
    ensures { result ≡ link_start sizes.n sizes.m k }
{
    HEAD_SIZE + field_total(sizes) + RECORD_SIZE * sizes.n + ARC_SIZE * (k - 1)
}

// "start needs 8N + 20M + 16"
pub fn area_length(sizes: Sizes) -> usize
    requires { (sizes.n ≤ most_processes) × (sizes.m ≤ most_arcs) }
    ensures { result ≡ area_length sizes.n sizes.m }
{
    16 + 8 * sizes.n + 20 * sizes.m
}
