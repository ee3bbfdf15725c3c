// Prints what a board does on the image, the sheet and the engine ticks on standard input.
//
// The input is an image of 80 bytes, the sheet's length in two bytes, low byte first, the sheet,
// and any number of engine ticks of 220 bytes. The table that the sheet becomes is run:
//
//   start STEP OUTPUTS PINS
//   TICK STEP OUTPUTS FAULTS WARNINGS PINS
//
// with a line for each tick, everything as it stands after it, and words as four hexadecimal digits.
// A refusal prints `refused image NUMBER PLACE`, or `sheet` or `ticks` for `image`, and ends the run.
// A part that is cut short, or in which a read fails, is refused as 1 0.
#![tactic(auto)]

mod board;

ghost use Rattle.std.specs.Prelude.{◌≡◌, IfOk, IfSome};
ghost use Rattle.io.specs.Counts.{IsPrefixLen};

use board::Board;
use console::print;
use records::Refusal;
use std::io;
use std::io::{Read, Write};
use text::Line;

// Why a run ends before its input does.
#[derive(Drop)]
enum Stop {
    // A space and the part of the input that is refused, and why.
    Refused(&'static [u8], Refusal),
    Unprinted(io::Error),
}

impl From<io::Error> for Stop {
    fn from(error: io::Error) -> Stop {
        Stop::Unprinted(error)
    }
}

fn main(rt: HostRuntime) -> io::Result<()> {
    match play(&mut rt.stdin(), &mut rt.stdout()) {
        Ok(()) => Ok(()),
        Err(Stop::Refused(part, refusal)) => {
            console::print_refusal(&mut rt.stdout(), part, refusal)
        }
        Err(Stop::Unprinted(error)) => Err(error),
    }
}

fn play(input: &mut impl Read, output: &mut impl Write) -> Result<(), Stop> {
    // A read that failed counts no byte, and the reader and the translator refuse that. Buffers of a fixed size: no
    // program here takes memory from a heap.
    let mut bytes = [0u8; 80];
    let count = console::receive(input, &mut bytes).unwrap_or(0);
    let settings = accepted(b" image", reading::read(&bytes[..count]))?;
    // One byte more than the longest sheet, so that a longer one is refused and not cut.
    let mut sheet = [0u8; 1009];
    let length = receive_sheet(input, &mut sheet).unwrap_or(0);
    let mut table = [0u8; 756];
    let size = accepted(b" sheet", translate(&sheet[..length], &mut table))?;
    let board = accepted(b" ticks", Board::start(settings, &table[..size]))?;
    play_ticks(input, output, board)
}

// What came of a part of the input; a refusal ends the run.
fn accepted<T>(part: &'static [u8], answer: Result<T, Refusal>) -> Result<T, Stop>
    ensures { IfOk result (λ value. answer ≡ Ok value) }
{
    answer.map_err(|refusal| Stop::Refused(part, refusal))
}

// The length of the sheet that came, if it came whole.
fn receive_sheet(input: &mut impl Read, sheet: &mut [u8]) -> Option<usize>
    ensures { IfSome result (λ n. IsPrefixLen n sheet.new) }
{
    let mut announced = [0u8; 2];
    let came = console::receive(input, &mut announced).ok()?;
    if came < 2 {
        return None;
    }
    let length = sheet.len().min(u16::from_le_bytes(announced) as usize);
    let count = console::receive(input, &mut sheet[..length]).ok()?;
    (count == length).then_some(length)
}

// How many bytes the table has that the sheet becomes.
fn translate(sheet: &[u8], table: &mut [u8]) -> Result<usize, Refusal>
    ensures { IfOk result (λ n. IsPrefixLen n table.new) }
{
    let cells = translator::translate(sheet, table)?;
    Ok(12 * cells as usize)
}

// Stops at the end of the input, at a refusal, or at the last tick that a u64 counts, after 58 million
// years of the board's time. A read that failed counts no byte, and the detectors refuse that.
fn play_ticks(
    input: &mut impl Read,
    output: &mut impl Write,
    mut board: Board<'_>,
) -> Result<(), Stop> {
    print(output, start_line(board))?;
    for tick in 0..u64::MAX {
        let mut frames = [0u8; 220];
        let count = match console::receive(input, &mut frames) {
            Ok(0) => break,
            received => received.unwrap_or(0),
        };
        board = accepted(b" ticks", board.tick(&frames[..count]))?;
        print(output, tick_line(tick + 1, board))?;
    }
    Ok(())
}

fn start_line(board: Board<'_>) -> Line {
    let line = text::empty().word(b"start").item(board.shown.step as u64);
    word_item(word_item(line, board.shown.outputs), board.pins).word(b"\n")
}

fn tick_line(tick: u64, board: Board<'_>) -> Line {
    let line = text::empty().decimal(tick).item(board.shown.step as u64);
    let line = word_item(word_item(line, board.shown.outputs), board.words.faults);
    word_item(word_item(line, board.words.warnings), board.pins).word(b"\n")
}

fn word_item(line: Line, word: u16) -> Line {
    line.word(b" ").hex(word as u64, 4)
}
