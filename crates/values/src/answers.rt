// The lines. Output and name are passed apart: all lines go to one output, and each has a name of its own.
use console::print;
use engine::{Shown, Ticked};
use machine::State;
use records::{Refusal, Verdict};
use std::io;
use std::io::Write;

// NAME NUMBER PLACE, then the items of the answer, which differ by call: so the verdict is passed apart.
pub(crate) fn print_answer(
    output: &mut impl Write,
    name: &str,
    verdict: Verdict,
    items: &[u16],
) -> io::Result<()> {
    let line = text::empty().word(name.as_bytes());
    let mut line = line.item(verdict.number as u64).item(verdict.place as u64);
    for item in items {
        line = line.item(*item as u64);
    }
    print(output, line.word(b"\n"))?;
    Ok(())
}

// Outputs and step, zero on a refusal.
pub(crate) fn print_shown(
    output: &mut impl Write,
    name: &str,
    answer: Result<Shown, Refusal>,
    state: State,
) -> io::Result<()> {
    let ticked = Ticked::of(answer, state);
    let items = [ticked.outputs, ticked.step as u16];
    print_answer(output, name, ticked.verdict, &items)
}

// The first bytes, so many of them, or all where there are fewer.
pub(crate) fn first(bytes: &[u8], length: usize) -> &[u8] {
    &bytes[..length.min(bytes.len())]
}
