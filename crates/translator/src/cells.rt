// How many cells a step takes, and where they begin: sums over the steps before, computed.
ghost use Rattle.std.specs.Prelude.{◌≤◌, ◌≡◌};
ghost use Rattle.translator.specs.Translation.{cells_for, cells_of, first_cell};

use words::word_at;

// A timeout's cells: its 4000s, rounded up, at least one.
#[tactic(auto, unfolding(crate::specs::Translation::cells_for))]
fn cells_for(timeout: u16) -> u16
    ensures value { result ≡ cells_for timeout }
    ensures upper_bound { result ≤ 17 }
{
    timeout.div_ceil(4000).max(1)
}

// A step's cells, from its timeout alone.
#[tactic(auto, unfolding(steps::specs::Steps::step_at))]
pub(crate) fn cells_of(sheet: &[u8], k: u8) -> u16
    ensures value { result ≡ cells_of sheet.now k }
    ensures upper_bound { result ≤ 17 }
{
    cells_for(word_at(sheet, 16 * (k as usize) + 12))
}

// The first cell of a step. A `for`, whose invariant bounds the sum so far: of `(0..step).map(..).sum()` the bound
// did not close.
#[tactic(auto, using(crate::proofs::CellCounts::first_zero, crate::proofs::CellCounts::first_more))]
pub(crate) fn first_cell(sheet: &[u8], step: u8) -> u16
    ensures { result ≡ first_cell sheet.now step }
{
    let mut first = 0;
    for i in 0..step {
        first += cells_of(sheet, i);
    }
    first
}
