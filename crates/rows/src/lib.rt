// The rows and the square of cells (areas::squares), made from a tested area, and where a link begins by a row.
#![tactic(auto)]

ghost use Rattle.std.specs.Prelude.{◌≡◌, true, ℕ, ◌+◌, ◌*◌, ◌≤◌, ◌<◌, length, get_or, set};
ghost use Rattle.tables.specs.Table.{most_processes, most_arcs};
ghost use Rattle.tables.specs.Pairs.{square_side, square_size};
ghost use Rattle.tables.specs.Waits.{waits_of, neighbours};
ghost use Rattle.areas.specs.Places.{area_length};
ghost use Rattle.areas.specs.Area.{arc_of, fields_in};
ghost use Rattle.areas.specs.Squares.{cell_room, Linked, Row, cell, Square};
ghost use Rattle.rows.specs.Filling.{with_arc, Room, Filled};

use areas::{places, squares};
use lenses::chains;
use lenses::tested::Tested;
use tables::Chain;

// The cell with an arc more of the chain, whose links begin at word i.
fn with_arc(c: Chain, cell: usize, i: usize) -> u16
    requires inside { i ≤ area_length most_processes most_arcs }
    requires has_room { cell < cell_room }
    ensures { result ≡ with_arc c cell i }
{
    match c {
        Chain::Out => squares::with_forth(cell, i),
        Chain::In => squares::with_back(cell, i),
    }
}

// The arcs of the chain of b, put into a row.
fn fill_chain(area: Tested, c: Chain, b: usize, row: &mut [u16; tables::SIDE])
    requires is_process { (1 ≤ b) × (b ≤ area.sizes.n) }
    requires row_length { length row.old ≡ square_side }
    requires room { Room row.old }
    ensures { Filled c (fields_in area.entry.words.now) b row.old row.new }
{
    let mut k = area.first(c, b);
    // Stays: an iterator over the arcs is no plainer: a struct of four fields and three ghost members, whose state would stand in each invariant.
    while k != 0 {
        let arc = area.arc(k);
        let q = chains::far_of(c, arc);
        let cell = squares::cell_of(row, q);
        row[q] = with_arc(c, cell, places::link_start(area.sizes, k));
        k = table_reader::next_of(c, arc);
    }
}

// The row of b, in an array of zeros.
pub fn fill_row(area: Tested, b: usize, row: &mut [u16; tables::SIDE])
    requires is_process { (1 ≤ b) × (b ≤ area.sizes.n) }
    requires row_length { length row.old ≡ square_side }
    requires zeros { (q : ℕ) → get_or row.old q 0 ≡ 0 }
    ensures { Row (fields_in area.entry.words.now) b row.new }
{
    fill_chain(area, Chain::Out, b, row);
    fill_chain(area, Chain::In, b, row);
}

// One arc of a and b, put into the square: from a to b on the out-chain, from b to a on the in-chain.
fn put_arc(c: Chain, a: usize, b: usize, i: usize, square: &mut [u16; tables::SQUARE_SIZE])
    requires numbers { (a ≤ most_processes) × (b ≤ most_processes) }
    requires inside { i ≤ area_length most_processes most_arcs }
    requires square_length { length square.old ≡ square_size }
    requires has_room { cell square.old a b < cell_room }
    ensures { square.new ≡ set square.old (a * square_side + b) (with_arc c (cell square.old a b) i) }
{
    let old = squares::cell_at(square, a, b);
    square[a * tables::SIDE + b] = with_arc(c, old, i);
}

// The square, in an array of zeros.
pub fn fill_square(area: Tested, square: &mut [u16; tables::SQUARE_SIZE])
    requires square_length { length square.old ≡ square_size }
    requires zeros { (k : ℕ) → get_or square.old k 0 ≡ 0 }
    ensures { Square (fields_in area.entry.words.now) square.new }
{
    for k in 1..=area.sizes.m {
        let arc = area.arc(k);
        let i = places::link_start(area.sizes, k);
        put_arc(Chain::Out, arc.from, arc.to, i, square);
        put_arc(Chain::In, arc.to, arc.from, i, square);
    }
}

// The arc from a to b, 0 if there is none, looked for on the in-chain of b.
fn arc_from(area: Tested, a: usize, b: usize) -> usize
    requires a_is_process { (1 ≤ a) × (a ≤ area.sizes.n) }
    requires b_is_process { (1 ≤ b) × (b ≤ area.sizes.n) }
    ensures { result ≡ arc_of (fields_in area.entry.words.now) a b }
{
    let mut k = area.first(Chain::In, b);
    // Stays: an iterator over the arcs is no plainer: a struct of four fields and three ghost members, whose state would stand in each invariant.
    while k != 0 {
        let arc = area.arc(k);
        if arc.from == a {
            return k;
        }
        k = table_reader::next_of(Chain::In, arc);
    }
    0
}

// Where the link from a to b begins, by the row of b, which says where the link from b to a does. It is the other link of the same arc, unless
// each waits for the other.
pub fn place_to(area: Tested, a: usize, b: usize, row: &[u16]) -> usize
    requires a_is_process { (1 ≤ a) × (a ≤ area.sizes.n) }
    requires b_is_process { (1 ≤ b) × (b ≤ area.sizes.n) }
    requires row { Row (fields_in area.words.now) b row.now }
    requires are_neighbours { neighbours (waits_of (fields_in area.words.now)) a b ≡ true }
    ensures { Linked (fields_in area.entry.words.now) a b result }
{
    let cell = squares::cell_of(row, a);
    let i = squares::place(cell);
    if !squares::joins(Chain::In, cell) {
        return i + places::LINK_SIZE;
    }
    if !squares::joins(Chain::Out, cell) {
        return i - places::LINK_SIZE;
    }
    let k = arc_from(area, a, b);
    places::link_start(area.sizes, k)
}
