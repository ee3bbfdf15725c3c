// A cell's bytes: outputs (2), mask (2), fault next, channel, level, sequence next, timeout (2),
// timeout next, step.
ghost use Rattle.std.specs.Prelude.{◌≡◌};
ghost use Rattle.records.specs.Answers.{verdict_of};
ghost use Rattle.tables.specs.Tables.{cell_at, cell_bytes, cell_written, part_verdict};

use machine::Node;
use records::{Number, Refusal, ensure};
use words::{byte_at, copy, word_at};

// The cell with a number. A byte past the table's end counts as 0. A cell has other fields at other offsets than a step,
// so each has a decoder of its own.
#[tactic(auto, unfolding(crate::specs::Tables::cell_at))]
pub fn cell_at(table: &[u8], k: u8) -> Node
    ensures { result ≡ cell_at table.now k }
{
    let at = 12 * (k as usize);
    Node {
        outputs: word_at(table, at),
        mask: word_at(table, at + 2),
        faultto: byte_at(table, at + 4),
        channel: byte_at(table, at + 5),
        level: byte_at(table, at + 6),
        sequenceto: byte_at(table, at + 7),
        timeout: word_at(table, at + 8),
        timeoutto: byte_at(table, at + 10),
        step: byte_at(table, at + 11),
    }
}

// Writes a cell into the twelve bytes lent for it. A part of any other length is refused, and kept.
#[tactic(auto, unfolding(crate::specs::Tables::part_verdict, crate::specs::Tables::cell_written))]
pub fn write_cell(cell: Node, part: &mut [u8]) -> Result<(), Refusal>
    ensures value { verdict_of result ≡ part_verdict part.old }
    ensures part_after { part.new ≡ cell_written cell part.old }
{
    ensure(part.len() == 12, Number::WrongLength, 0)?;
    copy(&cell_bytes(cell), part);
    Ok(())
}

#[tactic(auto, unfolding(crate::specs::Tables::cell_bytes, records::specs::Words::low_byte, records::specs::Words::high_byte))]
fn cell_bytes(cell: Node) -> [u8; 12]
    ensures { result ≡ cell_bytes cell }
{
    let [outputs, outputs_high] = cell.outputs.to_le_bytes();
    let [mask, mask_high] = cell.mask.to_le_bytes();
    let [timeout, timeout_high] = cell.timeout.to_le_bytes();
    [
        outputs,
        outputs_high,
        mask,
        mask_high,
        cell.faultto,
        cell.channel,
        cell.level,
        cell.sequenceto,
        timeout,
        timeout_high,
        cell.timeoutto,
        cell.step,
    ]
}
