// Runs the values of the paper that carry no star, and the refusals in their order.
//
// A line for each call: what was tried, then NUMBER PLACE, and after them the cells, or the outputs
// and the step, or the words, or the pins. In an order's lines each call has all the faults of the
// next, and one more that is tested before them. Buffers are of a fixed size: no program here takes memory from a heap.
#![tactic(auto)]

mod answers;
mod detections;
mod engines;
mod sheets_made;
mod translations;

use std::io;

fn main(rt: HostRuntime) -> io::Result<()> {
    let output = &mut rt.stdout();
    translations::try_cells(output)?;
    translations::try_lengths(output)?;
    translations::try_order(output)?;
    engines::try_words(output)?;
    engines::try_table_order(output)?;
    engines::try_sheet_order(output)?;
    engines::try_bytes_order(output)?;
    detections::try_read_order(output)?;
    detections::try_write_order(output)?;
    detections::try_tick_order(output)?;
    detections::try_pin_order(output)
}
