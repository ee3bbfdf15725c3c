// Tables: cells of twelve bytes, decoded, tested and written.
//
// Every function is total: its definition in specs/ gives a value for every argument of its type.
#![tactic(auto)]

mod cell;
mod fields;
mod verdict;

pub use cell::{cell_at, write_cell};
pub use verdict::{cell_standing, table_verdict};
