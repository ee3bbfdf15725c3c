// The tests of one cell and of the whole table.
ghost use Rattle.std.specs.Prelude.{◌≡◌, ◌∷◌, [], eqb, ltb};
ghost use Rattle.records.specs.Answers.{verdict_of};
ghost use Rattle.records.specs.Numbers.{wrong_length, out_of_range, unreachable};
ghost use Rattle.records.specs.Verdicts.{refused_unless, first_refusal};
ghost use Rattle.machine.specs.Answers.{as_stood};
ghost use Rattle.tables.specs.Tables.{is_table, cell_count, cell_fault, cell_standing, table_verdict};

use crate::cell::cell_at;
use crate::fields;
use machine::{Node, Stood};
use records::{Number, Refusal, ensure};
use words::is_whole;

// A cell, and whether the engine may stand at it.
#[tactic(auto, unfolding(crate::specs::Tables::cell_standing, crate::specs::Tables::cell_verdict, crate::specs::Tables::cell_tests, crate::specs::Tables::fields_verdict))]
pub fn cell_standing(table: &[u8], k: u8) -> Stood
    ensures { as_stood result ≡ cell_standing table.now k }
{
    let node = cell_at(table, k);
    let tested = tested(table, node, k);
    Stood { node, tested }
}

// The length, the cell's number, then number 4 at a cell with a field out of its range.
#[tactic(auto, using(records::proofs::ReturnLaws::tests), unfolding(crate::specs::Tables::cell_count))]
fn tested(table: &[u8], cell: Node, k: u8) -> Result<(), Refusal>
    ensures { verdict_of result ≡ first_refusal (refused_unless (is_table table.now) wrong_length 0 ∷ refused_unless (ltb k (cell_count table.now)) unreachable 0 ∷ refused_unless (eqb (cell_fault (cell_count table.now) cell).number 0) out_of_range k ∷ []) }
{
    ensure(is_table(table), Number::WrongLength, 0)?;
    ensure((k as usize) < table.len() / 12, Number::Unreachable, 0)?;
    sound_cell(table.len() / 12, cell, k)
}

// The length, then every cell; the lowest bad cell is named.
#[tactic(auto, using(records::proofs::ReturnLaws::tests, records::proofs::ReturnLaws::loops), unfolding(crate::specs::Tables::table_verdict, crate::specs::Tables::fields_verdict, crate::specs::Tables::cell_count))]
pub fn table_verdict(table: &[u8]) -> Result<(), Refusal>
    ensures { verdict_of result ≡ table_verdict table.now }
{
    ensure(is_table(table), Number::WrongLength, 0)?;
    let cells = (table.len() / 12) as u8;
    // By number: the bytes hold no slice of cells.
    for k in 0..cells {
        sound_cell(cells as usize, cell_at(table, k), k)?;
    }
    Ok(())
}

// 1 to 63 cells of 12 bytes.
#[tactic(auto, unfolding(crate::specs::Tables::is_table, records::specs::Lists::whole_records))]
fn is_table(table: &[u8]) -> bool
    ensures { result ≡ is_table table.now }
{
    is_whole(table, 12)
}

// Number 4 at k where cell k of so many has a field out of its range.
fn sound_cell(cells: usize, cell: Node, k: u8) -> Result<(), Refusal>
    ensures { verdict_of result ≡ refused_unless (eqb (cell_fault cells cell).number 0) out_of_range k }
{
    let sound = fields::cell_fault(cells, cell).is_ok();
    ensure(sound, Number::OutOfRange, k as usize)
}
