// Prints the table that one sheet on standard input is translated to, a line for each cell.
//
//   cells N
//   CELL STEP OUTPUTS MASK FAULT-NEXT CHANNEL LEVEL SEQUENCE-NEXT TIMEOUT TIMEOUT-NEXT
//
// with outputs and mask as four hexadecimal digits. What the translator refuses prints
// `refused NUMBER PLACE`.
#![tactic(auto)]

use console::print;
use machine::Node;
use std::io;
use std::io::Write;
use text::Line;

fn main(rt: HostRuntime) -> io::Result<()> {
    // One byte more than the longest sheet, so that a longer input is refused and not cut. Of a read that fails no byte
    // counts. Buffers of a fixed size: no program here takes memory from a heap.
    let mut sheet = [0u8; 1009];
    let count = console::receive(&mut rt.stdin(), &mut sheet).unwrap_or(0);
    let mut table = [0u8; 756];
    let output = &mut rt.stdout();
    match translator::translate(&sheet[..count], &mut table) {
        Ok(cells) => {
            print(output, heading(cells))?;
            print_cells(output, &table, cells)
        }
        Err(refusal) => console::print_refusal(output, b"", refusal),
    }
}

fn heading(cells: u8) -> Line {
    text::empty().word(b"cells").item(cells as u64).word(b"\n")
}

fn print_cells(output: &mut impl Write, table: &[u8], cells: u8) -> io::Result<()> {
    // By number: the bytes hold no slice of cells.
    for k in 0..cells {
        print(output, cell_line(k, tables::cell_at(table, k)))?;
    }
    Ok(())
}

fn cell_line(k: u8, cell: Node) -> Line {
    let line = text::empty().decimal(k as u64).item(cell.step as u64);
    let line = line.word(b" ").hex(cell.outputs as u64, 4);
    let line = line.word(b" ").hex(cell.mask as u64, 4);
    line.item(cell.faultto as u64)
        .item(cell.channel as u64)
        .item(cell.level as u64)
        .item(cell.sequenceto as u64)
        .item(cell.timeout as u64)
        .item(cell.timeoutto as u64)
        .word(b"\n")
}
