// Calls the library on each case of a stream, and compares every answer and every lent byte.
//
// docs/CASES.md has the stream's format and what is printed.
#![tactic(auto)]

mod bank;
mod calls;
mod fields;
mod for_c;
mod machine_calls;
mod settings;

ghost use Rattle.std.specs.Prelude.{◌≤◌};

use console::print;
use std::io;
use std::io::{Read, Write};
use text::Line;
use words::word_at;

// Buffers of a fixed size, and so a longest part: no program here takes memory from a heap.
const LONGEST: usize = 4096;

// What came of the stream's next case.
#[derive(Clone, Copy)]
enum Outcome {
    Alike,
    Differs(u8),
    CutShort,
    AtTheEnd,
}

fn main(rt: HostRuntime) -> io::Result<()> {
    let mut alike = 0;
    let mut different = 0;
    // Counted, since a loop has to end and the number is printed.
    for number in 0..u64::MAX {
        let outcome = next_case(&mut rt.stdin());
        tell(&mut rt.stdout(), number, outcome, different)?;
        match outcome {
            Outcome::Alike => alike += 1,
            Outcome::Differs(_) => different += 1,
            Outcome::CutShort | Outcome::AtTheEnd => break,
        }
    }
    print(&mut rt.stdout(), last_line(alike, different))?;
    Ok(())
}

fn next_case(input: &mut impl Read) -> Outcome {
    let mut header = [0u8; 7];
    let Ok(count) = console::receive(input, &mut header) else {
        return Outcome::CutShort;
    };
    if count == 0 {
        return Outcome::AtTheEnd;
    }
    let given = word_at(&header, 1) as usize;
    let lent = word_at(&header, 3) as usize;
    let expected = word_at(&header, 5) as usize;
    if count < 7 || given > LONGEST || lent > LONGEST || expected > LONGEST {
        return Outcome::CutShort;
    }
    try_case(input, header[0], given, lent, expected)
}

fn try_case(input: &mut impl Read, kind: u8, given: usize, lent: usize, expected: usize) -> Outcome
    requires given_bound { given ≤ 4096 }
    requires lent_bound { lent ≤ 4096 }
    requires expected_bound { expected ≤ 4096 }
{
    let mut arguments = [0u8; LONGEST];
    let mut buffer = [0u8; LONGEST];
    let mut answer = [0u8; LONGEST];
    let arguments = &mut arguments[..given];
    let buffer = &mut buffer[..lent];
    let answer = &mut answer[..expected];
    let came = fills(input, arguments) & fills(input, buffer) & fills(input, answer);
    if !came {
        return Outcome::CutShort;
    }
    if calls::is_alike(kind, arguments, buffer, answer) {
        Outcome::Alike
    } else {
        Outcome::Differs(kind)
    }
}

// Whether the input has bytes for the whole part.
fn fills(input: &mut impl Read, part: &mut [u8]) -> bool {
    console::receive(input, part).is_ok_and(|count| count == part.len())
}

// The first ten cases that differ are told, and a case that is cut short.
fn tell(output: &mut impl Write, number: u64, outcome: Outcome, different: u64) -> io::Result<()> {
    let line = text::empty().word(b"case").item(number);
    match outcome {
        Outcome::Differs(kind) if different < 10 => {
            let line = line.word(b" kind").item(kind as u64);
            print(output, line.word(b" differs\n"))?;
        }
        Outcome::CutShort => {
            print(output, line.word(b" is cut short\n"))?;
        }
        _ => {}
    }
    Ok(())
}

fn last_line(alike: u64, different: u64) -> Line {
    let line = text::empty().word(b"alike").item(alike);
    line.word(b" different").item(different).word(b"\n")
}
