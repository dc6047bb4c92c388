// The run area of a check from an accepted table, in lent words, whatever they hold: laid out with all values 0, and then begun at the start. The
// crate `starting` makes the checks before it.
#![tactic(auto)]

ghost use Rattle.std.specs.Prelude.{◌≡◌, ◌+◌, ◌*◌, ◌≤◌, length};
ghost use Rattle.tables.specs.Table.{field_of};
ghost use Rattle.checks.specs.Run.{started};
ghost use Rattle.areas.specs.Places.{head_size};
ghost use Rattle.areas.specs.Area.{stored, run_in, keeping};
ghost use Rattle.beginning.specs.Starting.{Startable, Unbegun, Cleared, Copied, quiet, begun_in};

use areas::places;
use lenses::records;
use lenses::tested::Tested;
use link_lenses::sending;
use steps::Process;
use tables::{Chain, Sizes};

// The first `count` words become 0.
fn clear(area: &mut [i32], count: usize)
    requires { count ≤ length area.old }
    ensures { Cleared area.old count area.new }
{
    area[..count].fill(0);
}

// The fields of a table go to the words of the copied one.
fn copy_fields(table: &[u8], count: usize, area: &mut [i32])
    requires table_long { 2 * count ≤ length table.now }
    requires area_long { head_size + count ≤ length area.old }
    ensures { Copied (field_of table.now) area.old count area.new }
{
    // Stays: after `iter_mut` a proof knows how many words there are, and none of them.
    for j in 0..count {
        area[places::HEAD_SIZE + j] = table_reader::field(table, j) as i32;
    }
}

// Lays out the area of a run that has not begun: the table copied, the start and the edition named, all values 0.
pub fn lay_out(table: &[u8], sizes: Sizes, s: usize, edition: usize, area: &mut [i32])
    requires { Startable table.now sizes.n sizes.m s edition area.old }
    ensures { area.new ≡ stored (field_of table.now) (quiet (field_of table.now) s edition) area.old }
{
    clear(area, places::area_length(sizes));
    copy_fields(table, places::field_total(sizes), area);
    area[places::CHECK] = places::KNOT_CHECK;
    area[places::START] = s as i32;
    area[places::EDITION] = edition as i32;
}

// The start's record: both flags, the number of probes that it sends, and "the start adds its own at once" (02, N3).
fn first_record(area: Tested, s: usize) -> Process
    requires { (1 ≤ s) × (s ≤ area.sizes.n) }
    ensures { result ≡ started (run_in area.entry.words.now).waits s }
{
    let successors = area.degree(Chain::Out, s);
    let predecessors = area.degree(Chain::In, s);
    Process {
        succeeding: 1,
        preceding: 1,
        num: successors + predecessors,
        second: steps::own_count(successors),
        ..Process::default()
    }
}

// Begins the run: the start's record, then suc to each successor, then pre to each predecessor.
pub fn begin(area: &mut [i32], sizes: Sizes, s: usize)
    requires { Unbegun area.old sizes s }
    ensures { area.new ≡ keeping area.old (begun_in area.old s) }
{
    let mut row = [0u16; tables::SIDE];
    rows::fill_row(Tested { words: area, sizes }, s, &mut row);
    let first = first_record(Tested { words: area, sizes }, s);
    records::put_process(area, sizes, s, first);
    sending::broadcast(area, &row, sizes, Chain::Out, s);
    sending::broadcast(area, &row, sizes, Chain::In, s);
}
