// Every test first; then the cells, each into the part lent for it.
ghost use Rattle.std.specs.Prelude.{◌≤◌, ◌<◌, ◌*◌, ◌+◌, ◌≡◌, ◌++◌, IfOk, length, take, drop};
ghost use Rattle.records.specs.Answers.{verdict_of};
ghost use Rattle.steps.specs.Steps.{step_count};
ghost use Rattle.translator.specs.Answers.{as_translation};
ghost use Rattle.translator.specs.Translation.{translation_verdict, translation, translated, table_of, cell_total, first_cell, cells_of, step_bytes};

use crate::Accepted;
use crate::cells::{cells_of, first_cell};
use crate::cut::cut;
use records::{Number, Refusal, ensure};
use sheets::sheet_verdict;
use steps::step_count;
use tables::write_cell;

// Translates a sheet into the lent table, and answers how many cells it has. Bytes beyond the cells stay; a refusal
// leaves every byte.
#[tactic(auto, using(crate::proofs::VerdictLaws::answered), unfolding(crate::specs::Translation::translation, crate::specs::Translation::translated))]
pub fn translate(sheet: &[u8], table: &mut [u8]) -> Result<u8, Refusal>
    ensures value { as_translation result ≡ translation sheet.now table.old }
    ensures table_after { table.new ≡ translated sheet.now table.old }
{
    let accepted = Accepted::new(sheet, table.len())?;
    accepted.write(table);
    Ok(accepted.cells)
}

impl<'a> Accepted<'a> {
    // The sheet's tests, then cells, then room.
    #[tactic(auto, using(crate::proofs::VerdictLaws::in_turn_tests), unfolding(crate::specs::Translation::cell_total))]
    fn new(sheet: &'a [u8], room: usize) -> Result<Accepted<'a>, Refusal>
        ensures verdict { verdict_of result ≡ translation_verdict sheet.now room }
        ensures sheet { IfOk result (λ accepted. accepted.sheet.now ≡ sheet.now) }
    {
        sheet_verdict(sheet)?;
        let cells = first_cell(sheet, step_count(sheet));
        let bytes = 12 * cells as usize;
        ensure(cells <= 63, Number::TooManyCells, 0)?;
        ensure(bytes <= room, Number::NoRoom, 0)?;
        let cells = cells as u8;
        Ok(Accepted { sheet, cells })
    }

    // Every step's cells, one step after the other.
    #[tactic(auto, using(crate::proofs::WriteLaws::steps_written))]
    fn write(&self, table: &mut [u8])
        requires { 12 * cell_total self.now.sheet.now ≤ length table.old }
        ensures { table.new ≡ table_of self.now.sheet.now ++ drop (12 * cell_total self.now.sheet.now) table.old }
    {
        let steps = step_count(self.sheet);
        let mut first = 0;
        // By number: the bytes hold no slice of steps.
        for i in 0..steps {
            let cells = cells_of(self.sheet, i);
            self.write_step(i, first, cells, table);
            first += cells;
        }
    }

    // The cells of step i, from cell `first` on. Each part has a cell's twelve bytes, so none is refused. The parts are
    // lent from 12k on, a form of the paper, and not by `chunks_exact_mut`.
    #[tactic(auto, using(crate::proofs::WriteLaws::cells_written))]
    fn write_step(&self, i: u8, first: u16, cells: u16, table: &mut [u8])
        requires in_bounds { 12 * cell_total self.now.sheet.now ≤ length table.old }
        requires i_bound { i < step_count self.now.sheet.now }
        requires first_value { first ≡ first_cell self.now.sheet.now i }
        requires cells_value { cells ≡ cells_of self.now.sheet.now i }
        ensures { table.new ≡ take (12 * first) table.old ++ (step_bytes self.now.sheet.now i ++ drop (12 * (first + cells)) table.old) }
    {
        let last = self.last_cut(i, cells - 1);
        for j in 0..cells {
            let at = 12 * ((first + j) as usize);
            let cell = cut(last, (first + j + 1) as u8, j + 1 == cells);
            let _ = write_cell(cell, &mut table[at..at + 12]);
        }
    }
}
