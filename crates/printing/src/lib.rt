// Everything that the check program prints for an input, whatever its bytes (01, "The check program"): the picks, the deliveries that it makes
// itself, the processes and the report; or the number of the input's refusal alone. `form` forms it in bytes that the caller lends, and its
// promise is an equation of these bytes with one function of the input's bytes (program_text, `Program`). Each part of `form` says which run the
// area holds after it, and that just its own lines were put, behind those before.
//
// `check_standard_input` reads, calls `form` and writes. It stands on `inputs`, `delivery_lines`, `end_lines`, `reading` and below, and `streams`.
#![tactic(auto)]

ghost use Rattle.std.specs.Prelude.{◌+◌, ◌≡◌, true, take, IfSome, OnOk, Err};
ghost use Rattle.std.specs.Io.KnownBytes.{Appends};
ghost use Rattle.areas.specs.Area.{run_in, area_right};
ghost use Rattle.lenses.specs.Ready.{Ready};
ghost use Rattle.inputs.specs.Input.{table_end, picks_in, longest};
ghost use Rattle.lines.specs.Adding.{HasRoom, Adds};
ghost use Rattle.program_text.specs.Program.{first_run, rest_text, check_text, program_text};
ghost use Rattle.printing.specs.Form.{form_of, formed_in};
ghost use Rattle.printing.specs.declared.NotDone.TheVariants.{NotRead};

use areas::places;
use inputs::Begun;
use lenses::heading;
use lenses::tested::Tested;
use lines::Page;
use marks::Memory;
use refusals::Refusal;
use std::io;
use std::io::{Read, Write};
use tables::Sizes;

// As many picks as the longest input has behind the largest table, 3,966.
const MOST_PICKS: usize = (inputs::LONGEST - 4 - places::MOST_BYTES) / 4;

// No output is longer, 168,453 bytes: these picks, 2,048 deliveries of its own, 128 processes and the report (`longest_output` in program_text, `Longest`).
pub const LONGEST_OUTPUT: usize = 28 * MOST_PICKS
    + 26 * checks::MOST_DELIVERIES as usize
    + 32 * tables::MOST_PROCESSES
    + 61;

// All that follows the picks.
fn put_rest(page: &mut Page, area: &mut [i32], sizes: Sizes)
    requires ready { Ready area.old sizes }
    requires room { HasRoom page.old (rest_text (run_in area.old)) }
    ensures { Adds page.old (rest_text (run_in area.old)) page.new }
{
    let mut square = [0u16; tables::SQUARE_SIZE];
    rows::fill_square(Tested { words: area, sizes }, &mut square);
    let mut memory = Memory::new();
    choosing::remember(Tested { words: area, sizes }, &square, &mut memory);
    delivery_lines::put_owns(page, area, &square, sizes, &mut memory);
    end_lines::put_end(page, Tested { words: area, sizes });
}

// The answer to a begun input. The area that its start left is well formed, and is not tested.
fn put_begun(page: &mut Page, input: &[u8], begun: Begun, area: &mut [i32])
    requires end_is { begun.end ≡ table_end input.now }
    requires picks_is { begun.picks ≡ picks_in input.now }
    requires right { area_right area.old ≡ true }
    requires first { run_in area.old ≡ first_run input.now }
    requires room { HasRoom page.old (check_text input.now) }
    ensures { Adds page.old (check_text input.now) page.new }
{
    let sizes = heading::sizes_of(area);
    delivery_lines::put_picks(page, input, begun, area, sizes);
    put_rest(page, area, sizes);
}

// The answer to any input. The area has the most words that a check may need.
fn put_check(page: &mut Page, input: &[u8])
    requires { HasRoom page.old (program_text input.now) }
    ensures { Adds page.old (program_text input.now) page.new }
{
    let mut area = [0i32; places::MOST_WORDS];
    match inputs::begin(input, &mut area) {
        Ok(begun) => put_begun(page, input, begun, &mut area),
        Err(refusal) => page.put_refused(u32::from(refusal)),
    }
}

// Forms everything that the program prints for an input, at the front of the lent bytes, and gives how many bytes it is: 11, "the output is too short",
// if fewer bytes are lent than the longest output has.
pub fn form(input: &[u8], out: &mut [u8]) -> Result<usize, Refusal>
    ensures answer { result ≡ form_of input.now out.old }
    ensures out { out.new ≡ formed_in input.now out.old }
{
    if out.len() < LONGEST_OUTPUT {
        return Err(Refusal::OutputShort);
    }
    let mut page = Page { out, end: 0 };
    put_check(&mut page, input);
    Ok(page.end)
}

// Prints the answer to an input, all of it, or fails.
pub fn print_check<W: Write>(to: &mut W, input: &[u8]) -> io::Result<()>
    ensures { OnOk result (Appends (W.contents to.old) (W.contents to.new) (program_text input.now)) }
{
    let mut output = [0u8; LONGEST_OUTPUT];
    let length = form(input, &mut output).unwrap();
    streams::print(to, &output[..length])
}

// Why a check was not printed: a read failed, and nothing was printed; or a write failed.
#[derive(Clone, Copy, Debug, PartialEq, Eq)]
pub enum NotDone {
    NotRead,
    NotWritten,
}

// Reads an input to its end, and prints the answer to it. One byte more than the longest input is read, so that a longer one is seen.
pub fn check_input<R: Read, W: Write>(from: &mut R, to: &mut W) -> Result<(), NotDone>
    ensures printed { OnOk result (IfSome (R.remaining from.old) (λ bs. Appends (W.contents to.old) (W.contents to.new) (program_text (take (longest + 1) bs)))) }
    ensures not_read { result ≡ Err NotRead → W.contents to.new ≡ W.contents to.old }
{
    let mut input = [0u8; inputs::LONGEST + 1];
    let Ok(length) = reading::read_input(from, &mut input) else {
        return Err(NotDone::NotRead);
    };
    match print_check(to, &input[..length]) {
        Ok(()) => Ok(()),
        Err(_) => Err(NotDone::NotWritten),
    }
}

// Prints the answer to the input that standard input holds. If a read fails nothing is printed, and if a write fails nothing after it; both
// are said on standard error.
pub fn check_standard_input(rt: &(impl Input + Print + Eprint)) {
    let _ = match check_input(&mut rt.reader(), &mut io::writer(rt)) {
        Ok(()) => Ok(()),
        Err(NotDone::NotRead) => rt.eprintln("knot_check: reading standard input failed"),
        Err(NotDone::NotWritten) => rt.eprintln("knot_check: writing standard output failed"),
    };
}
