// Cells: for a pair of processes, where the link from the first to the second begins, and who of the two waits for whom, in one number of 16
// bits. A row has the cells of one process, a square those of all.
ghost use Rattle.std.specs.Prelude.{◌≡◌, ◌+◌, ◌≤◌, ◌<◌, length, get_or};
ghost use Rattle.tables.specs.Table.{most_processes, most_arcs};
ghost use Rattle.tables.specs.Pairs.{square_side, square_size};
ghost use Rattle.areas.specs.Places.{area_length};
ghost use Rattle.areas.specs.Squares.{place_in, joins_in, with_forth, with_back, cell_room, cell};

use crate::places;
use tables::Chain;

// The cell of q in a row.
pub fn cell_of(row: &[u16], q: usize) -> usize
    requires { q < length row.now }
    ensures is { result ≡ get_or row.now q 0 }
    ensures small { result ≤ 65535 }
{
    usize::from(row[q])
}

// The cell of a and b in a square.
pub fn cell_at(square: &[u16; tables::SQUARE_SIZE], a: usize, b: usize) -> usize
    requires { (a ≤ most_processes) × (b ≤ most_processes) }
    ensures is { result ≡ cell square.now a b }
    ensures small { result ≤ 65535 }
{
    usize::from(square[a * tables::SIDE + b])
}

// The first word of the link, by a cell of neighbours.
pub fn place(cell: usize) -> usize
    ensures { result ≡ place_in cell }
{
    cell / 4
}

// The first waits for the second, or the second for the first.
pub fn joins(c: Chain, cell: usize) -> bool
    ensures { result ≡ joins_in c cell }
{
    match c {
        Chain::Out => cell % 2 == 1,
        Chain::In => cell / 2 % 2 == 1,
    }
}

// The cell with an arc more from the first to the second, whose links begin at word i.
pub fn with_forth(cell: usize, i: usize) -> u16
    requires { i ≤ area_length most_processes most_arcs }
    ensures { result ≡ with_forth cell i }
{
    (4 * i + cell / 2 % 2 * 2 + 1) as u16
}

// The cell with an arc more from the second to the first. Where the first waits for the second, the link is that of the arc forth.
pub fn with_back(cell: usize, i: usize) -> u16
    requires i_bound { i ≤ area_length most_processes most_arcs }
    requires cell_lt_cell_room { cell < cell_room }
    ensures { result ≡ with_back cell i }
{
    if cell % 2 == 1 {
        return (cell + 2) as u16;
    }
    (4 * (i + places::LINK_SIZE) + 2) as u16
}
