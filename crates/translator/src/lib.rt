// The translator: from a sheet to the table that runs as the sheet runs.
#![tactic(auto)]

mod cells;
mod cut;
mod writer;

ghost use Rattle.std.specs.Prelude.{◌≡◌, ◌≤◌};
ghost use Rattle.sheets.specs.Sheets.{sheet_verdict};
ghost use Rattle.translator.specs.Translation.{cell_total};

pub use writer::translate;

// A sheet whose own tests pass, and whose cells are no more than a table has.
#[derive(Clone, Copy)]
struct Accepted<'a> {
    sheet: &'a [u8],
    cells: u8,
    ghost sound: { (sheet_verdict sheet.now).number ≡ 0 },
    ghost counted: { cells ≡ cell_total sheet.now },
    ghost few: { cells ≤ 63 },
}
