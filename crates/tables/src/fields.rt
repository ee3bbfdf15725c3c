// The tests of a cell's fields: each refusal has the kind of fault, and the field's offset in the cell as place.
// They stand in the order of the offsets, which a cell and a step do not share.
ghost use Rattle.std.specs.Prelude.{◌≡◌};
ghost use Rattle.records.specs.Answers.{verdict_by};
ghost use Rattle.machine.specs.Answers.{fault_number};
ghost use Rattle.tables.specs.Tables.{cell_fault, next_fault};

use machine::{Fault, Node};
use records::{Refusal, ensure};

#[tactic(auto, using(records::proofs::ReturnLaws::tests), unfolding(crate::specs::Tables::cell_fault, machine::specs::Fields::outputs_in_range, machine::specs::Fields::mask_in_range, machine::specs::Fields::channel_in_range, machine::specs::Fields::level_in_range, machine::specs::Fields::level_allowed))]
pub(crate) fn cell_fault(cells: usize, cell: Node) -> Result<(), Refusal<Fault>>
    ensures { verdict_by fault_number result ≡ cell_fault cells cell }
{
    ensure(cell.outputs < 1024, Fault::Range, 0)?;
    ensure(cell.mask < 1024, Fault::Range, 2)?;
    next_fault(cells, cell.mask != 0, cell.faultto, 4)?;
    ensure(cell.channel <= 10, Fault::Range, 5)?;
    ensure(cell.level <= 1, Fault::Range, 6)?;
    ensure(
        (cell.channel != 0) | (cell.level == 0),
        Fault::LevelWithoutChannel,
        6,
    )?;
    next_fault(cells, cell.channel != 0, cell.sequenceto, 7)?;
    ensure(cell.timeout <= 4000, Fault::Range, 8)?;
    next_fault(cells, cell.timeout != 0, cell.timeoutto, 10)?;
    ensure(cell.step <= 62, Fault::Range, 11)
}

// "Next below the number of cells, and 0 where the exit is absent."
#[tactic(auto, using(records::proofs::ReturnLaws::tests), unfolding(crate::specs::Tables::next_fault))]
fn next_fault(cells: usize, present: bool, next: u8, offset: usize) -> Result<(), Refusal<Fault>>
    ensures { verdict_by fault_number result ≡ next_fault cells present next offset }
{
    ensure((next as usize) < cells, Fault::Range, offset)?;
    ensure(present | (next == 0), Fault::JumpWithoutExit, offset)
}
