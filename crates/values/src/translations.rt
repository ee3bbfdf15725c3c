// The translator: cells, lengths, and its refusals in their order.
use crate::answers::{first, print_answer};
use crate::sheets_made::{mended, waits};
use records::Verdict;
use std::io;
use std::io::Write;

// The faulty sheet with so many steps mended, cut to a length, and the room of the table.
struct Translation {
    name: &'static str,
    steps: usize,
    length: usize,
    room: usize,
}

const CELLS: [Translation; 2] = [
    Translation {
        name: "six steps of 40000 and three of 1:",
        steps: 6,
        length: 144,
        room: 756,
    },
    Translation {
        name: "six steps of 40000 and four of 1:",
        steps: 6,
        length: 160,
        room: 756,
    },
];

// Length, fields, repeated tags, unknown tags, cells, room.
const ORDER: [Translation; 7] = [
    Translation {
        name: "translation, 1024 bytes:",
        steps: 0,
        length: 1024,
        room: 755,
    },
    Translation {
        name: "translation, then 1008:",
        steps: 0,
        length: 1008,
        room: 755,
    },
    Translation {
        name: "translation, then outputs mended:",
        steps: 3,
        length: 1008,
        room: 755,
    },
    Translation {
        name: "translation, then the tag mended:",
        steps: 5,
        length: 1008,
        room: 755,
    },
    Translation {
        name: "translation, then the jump mended:",
        steps: 6,
        length: 1008,
        room: 755,
    },
    Translation {
        name: "translation, then nine steps:",
        steps: 6,
        length: 144,
        room: 755,
    },
    Translation {
        name: "translation, then 756 bytes of room:",
        steps: 6,
        length: 144,
        room: 756,
    },
];

pub(crate) fn try_cells(output: &mut impl Write) -> io::Result<()> {
    try_all(output, &CELLS)
}

pub(crate) fn try_order(output: &mut impl Write) -> io::Result<()> {
    try_all(output, &ORDER)
}

fn try_all(output: &mut impl Write, all: &[Translation]) -> io::Result<()> {
    for tried in all {
        let sheet = mended(tried.steps);
        let mut table = [0u8; 756];
        let room = tried.room.min(756);
        let answer = translator::translate(first(&sheet, tried.length), &mut table[..room]);
        let cells = answer.unwrap_or(0) as u16;
        print_answer(output, tried.name, Verdict::of(answer), &[cells])?;
    }
    Ok(())
}

// All steps but the first wait one tick.
pub(crate) fn try_lengths(output: &mut impl Write) -> io::Result<()> {
    try_length(output, "length 1008:", 1008)?;
    try_length(output, "length 1024:", 1024)
}

fn try_length(output: &mut impl Write, name: &str, length: usize) -> io::Result<()> {
    let answer = sheets::sheet_verdict(first(&waits(), length));
    print_answer(output, name, Verdict::of(answer), &[])
}
