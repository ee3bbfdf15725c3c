// The engine: words, and its refusals in their order.
use crate::answers::{first, print_shown};
use crate::sheets_made::{mended, waits};
use engine::{Form, Sheet, Table};
use machine::State;
use std::io;
use std::io::Write;

// A tick on the first bytes of a table or a sheet, from a state with a word. Of a sheet so many steps are mended; of a
// table the last cell's outputs, where any is.
struct Tick {
    name: &'static str,
    mended: usize,
    length: usize,
    at: u8,
    elapsed: u16,
    word: u16,
}

const TABLE_WORDS: [Tick; 2] = [
    Tick {
        name: "table, word 1023:",
        mended: 1,
        length: 756,
        at: 0,
        elapsed: 0,
        word: 1023,
    },
    Tick {
        name: "table, word 1024:",
        mended: 1,
        length: 756,
        at: 0,
        elapsed: 0,
        word: 1024,
    },
];

const SHEET_WORDS: [Tick; 2] = [
    Tick {
        name: "sheet, word 1023:",
        mended: 6,
        length: 1008,
        at: 0,
        elapsed: 0,
        word: 1023,
    },
    Tick {
        name: "sheet, word 1024:",
        mended: 6,
        length: 1008,
        at: 0,
        elapsed: 0,
        word: 1024,
    },
];

// Length, the cell's number, that cell, elapsed, word.
const TABLE_ORDER: [Tick; 6] = [
    Tick {
        name: "table tick, 755 bytes:",
        mended: 0,
        length: 755,
        at: 63,
        elapsed: 1,
        word: 1024,
    },
    Tick {
        name: "table tick, then 756:",
        mended: 0,
        length: 756,
        at: 63,
        elapsed: 1,
        word: 1024,
    },
    Tick {
        name: "table tick, then cell 62:",
        mended: 0,
        length: 756,
        at: 62,
        elapsed: 1,
        word: 1024,
    },
    Tick {
        name: "table tick, then its outputs mended:",
        mended: 1,
        length: 756,
        at: 62,
        elapsed: 1,
        word: 1024,
    },
    Tick {
        name: "table tick, then elapsed 0:",
        mended: 1,
        length: 756,
        at: 62,
        elapsed: 0,
        word: 1024,
    },
    Tick {
        name: "table tick, then word 1023:",
        mended: 1,
        length: 756,
        at: 62,
        elapsed: 0,
        word: 1023,
    },
];

// The sheet's tests without cells and room, the step's number, elapsed, word.
const SHEET_ORDER: [Tick; 8] = [
    Tick {
        name: "sheet tick, 1024 bytes:",
        mended: 0,
        length: 1024,
        at: 63,
        elapsed: 1,
        word: 1024,
    },
    Tick {
        name: "sheet tick, then 1008:",
        mended: 0,
        length: 1008,
        at: 63,
        elapsed: 1,
        word: 1024,
    },
    Tick {
        name: "sheet tick, then outputs mended:",
        mended: 3,
        length: 1008,
        at: 63,
        elapsed: 1,
        word: 1024,
    },
    Tick {
        name: "sheet tick, then the tag mended:",
        mended: 5,
        length: 1008,
        at: 63,
        elapsed: 1,
        word: 1024,
    },
    Tick {
        name: "sheet tick, then the jump mended:",
        mended: 6,
        length: 1008,
        at: 63,
        elapsed: 1,
        word: 1024,
    },
    Tick {
        name: "sheet tick, then step 62:",
        mended: 6,
        length: 1008,
        at: 62,
        elapsed: 1,
        word: 1024,
    },
    Tick {
        name: "sheet tick, then elapsed 0:",
        mended: 6,
        length: 1008,
        at: 62,
        elapsed: 0,
        word: 1024,
    },
    Tick {
        name: "sheet tick, then word 1023:",
        mended: 6,
        length: 1008,
        at: 62,
        elapsed: 0,
        word: 1023,
    },
];

pub(crate) fn try_words(output: &mut impl Write) -> io::Result<()> {
    try_tables(output, &TABLE_WORDS)?;
    try_sheets(output, &SHEET_WORDS)
}

pub(crate) fn try_table_order(output: &mut impl Write) -> io::Result<()> {
    try_tables(output, &TABLE_ORDER)
}

pub(crate) fn try_sheet_order(output: &mut impl Write) -> io::Result<()> {
    try_sheets(output, &SHEET_ORDER)
}

fn try_tables(output: &mut impl Write, ticks: &[Tick]) -> io::Result<()> {
    for tried in ticks {
        let high = if tried.mended == 0 { 4 } else { 0 };
        try_tick::<Table>(output, &nine_steps(high), tried)?;
    }
    Ok(())
}

fn try_sheets(output: &mut impl Write, ticks: &[Tick]) -> io::Result<()> {
    for tried in ticks {
        try_tick::<Sheet>(output, &mended(tried.mended), tried)?;
    }
    Ok(())
}

fn try_tick<F: Form>(output: &mut impl Write, bytes: &[u8], tried: &Tick) -> io::Result<()> {
    let mut state = State {
        at: tried.at,
        elapsed: tried.elapsed,
    };
    let answer = engine::tick::<F>(first(bytes, tried.length), &mut state, tried.word);
    print_shown(output, tried.name, answer, state)
}

// The table of the first nine steps, 63 cells, with the high byte of the last cell's outputs.
fn nine_steps(high: u8) -> [u8; 756] {
    let sheet = waits();
    let mut table = [0u8; 756];
    let _ = translator::translate(&sheet[0..144], &mut table);
    table[12 * 62 + 1] = high;
    table
}

// The state's bytes, their length and then held, before the call's own tests.
pub(crate) fn try_bytes_order(output: &mut impl Write) -> io::Result<()> {
    tick_bytes(
        output,
        "tick on bytes, 7 of them:",
        &mut [62, 1, 0, 0, 0, 0, 0],
        1024,
    )?;
    tick_bytes(
        output,
        "tick on bytes, then 8:",
        &mut [62, 1, 0, 0, 0, 0, 0, 0],
        1024,
    )?;
    tick_bytes(
        output,
        "tick on bytes, then held mended:",
        &mut [62, 0, 0, 0, 0, 0, 0, 0],
        1024,
    )?;
    tick_bytes(
        output,
        "tick on bytes, then word 1023:",
        &mut [62, 0, 0, 0, 0, 0, 0, 0],
        1023,
    )
}

fn tick_bytes(output: &mut impl Write, name: &str, state: &mut [u8], word: u16) -> io::Result<()> {
    let answer = state_calls::tick::<Table>(&nine_steps(0), state, word);
    print_shown(output, name, answer, states::state_from(state))
}
