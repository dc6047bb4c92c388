// The check program's input: the start process, the edition (02, N4), the table, and the picks. It is split by its own N and M, refused by the
// rows 13, 1, 2, 3 and 12 of 01, in order, and then its table is started: "then 4 to 8", and 30.
#![tactic(auto)]

ghost use Rattle.std.specs.Prelude.{◌≡◌, ◌<◌};
ghost use Rattle.inputs.specs.Input.{table_end, picks_in, split_of, pick_in, begun_of, begun_area};

use refusals::Refusal;

// The most bytes that an input may have: `longest` in specs/. One more is "input over 20,480 bytes".
pub const LONGEST: usize = 20480;

// The parts of an input: the start process, the edition, where the table ends and the picks begin, and the number of picks.
#[derive(Clone, Copy, PartialEq, Eq)]
pub struct Parts {
    pub start: usize,
    pub edition: usize,
    pub end: usize,
    pub picks: usize,
}

// The two ends that a pick names.
#[derive(Clone, Copy, PartialEq, Eq)]
pub struct Pick {
    pub from: u32,
    pub to: u32,
}

// What follows the table of a begun input: so many picks, from where it ends.
#[derive(Clone, Copy, PartialEq, Eq)]
pub struct Begun {
    pub end: usize,
    pub picks: usize,
}

// Splits any bytes by their own N and M: "checks 13, 1, 2, 3, 12".
fn split(input: &[u8]) -> Result<Parts, Refusal>
    ensures { result ≡ split_of input.now }
{
    let length = input.len();
    if length > LONGEST {
        return Err(Refusal::InputLong);
    }
    if length < 8 {
        return Err(Refusal::TableShort);
    }
    let start = table_reader::field(input, 0);
    let edition = table_reader::field(input, 1);
    let n = table_reader::field(input, 2);
    let m = table_reader::field(input, 3);
    if n == 0 {
        return Err(Refusal::Sizes);
    }
    if n > tables::MOST_PROCESSES {
        return Err(Refusal::Sizes);
    }
    if m > tables::MOST_ARCS {
        return Err(Refusal::Sizes);
    }
    let end = 8 + 4 * n + 8 * m;
    if length < end {
        return Err(Refusal::TableLength);
    }
    let rest = length - end;
    if rest % 4 != 0 {
        return Err(Refusal::BytesLeft);
    }
    Ok(Parts {
        start,
        edition,
        end,
        picks: rest / 4,
    })
}

// Pick j, counted from 0, of an input whose table ends at `end`.
pub fn pick_at(input: &[u8], end: usize, j: usize) -> Pick
    requires end_is { end ≡ table_end input.now }
    requires is_pick { j < picks_in input.now }
    ensures { result ≡ pick_in input.now j }
{
    let picks = &input[end..];
    let from = table_reader::field(picks, 2 * j) as u32;
    let to = table_reader::field(picks, 2 * j + 1) as u32;
    Pick { from, to }
}

// Splits the input and starts its table in the lent words: "checks 13, 1, 2, 3, 12, then 4 to 8", then 30. A refusal
// changes no word.
pub fn begin(input: &[u8], area: &mut [i32]) -> Result<Begun, Refusal>
    ensures answer { result ≡ begun_of input.now area.old }
    ensures area { area.new ≡ begun_area input.now area.old }
{
    let parts = split(input)?;
    starting::start(&input[4..parts.end], parts.start, parts.edition, area)?;
    Ok(Begun {
        end: parts.end,
        picks: parts.picks,
    })
}
