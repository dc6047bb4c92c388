// Start: reads the table on any bytes, and makes the run area of a check in lent words, whatever they hold. It refuses by the rows 1 to 8
// of 01, then by 30 (02, N4) and 9, and then leaves every word as it was.
#![tactic(auto)]

ghost use Rattle.std.specs.Prelude.{◌≡◌};
ghost use Rattle.refusals.specs.Numbers.{answered};
ghost use Rattle.tables.specs.Table.{field_of};
ghost use Rattle.areas.specs.Area.{stored};
ghost use Rattle.beginning.specs.Starting.{Startable, start_of};
ghost use Rattle.starting.specs.Rows.{row_met};
ghost use Rattle.starting.specs.StartCall.{start_answer, start_area};

use areas::places;
use refusals::Refusal;
use tables::{Sizes, is_process};

// Makes the area of a begun run, for an accepted table and enough words.
fn set_up(table: &[u8], sizes: Sizes, s: usize, edition: usize, area: &mut [i32])
    requires { Startable table.now sizes.n sizes.m s edition area.old }
    ensures { area.new ≡ stored (field_of table.now) (start_of (field_of table.now) s edition) area.old }
{
    beginning::lay_out(table, sizes, s, edition, area);
    beginning::begin(area, sizes, s);
}

// The first of the rows 8, 30 and 9 that is met, if one is.
fn row_met(process: bool, named: bool, short: bool) -> Result<(), Refusal>
    ensures { result ≡ answered (row_met process named short) tt }
{
    match (process, named, short) {
        (false, _, _) => Err(Refusal::Process),
        (_, false, _) => Err(Refusal::Edition),
        (_, _, true) => Err(Refusal::AreaShort),
        _ => Ok(()),
    }
}

// Starts a check at process s under an edition: checks 1 to 8, 30, 9, in order, on any bytes and any words.
pub fn start(table: &[u8], s: usize, edition: usize, area: &mut [i32]) -> Result<(), Refusal>
    ensures answer { result ≡ start_answer table.now s edition area.old }
    ensures area { area.new ≡ start_area table.now s edition area.old }
{
    let sizes = table_reader::read(table)?;
    let process = is_process(s, sizes.n);
    let named = checks::is_edition(edition);
    let short = area.len() < places::area_length(sizes);
    row_met(process, named, short)?;
    set_up(table, sizes, s, edition, area);
    Ok(())
}
