// Sheets: their tags, their steps as nodes, and their verdict.
//
// Every function is total: its definition in specs/ gives a value for every argument of its type.
#![tactic(auto)]

mod node;
mod tags;
mod verdict;

pub use node::node_at;
pub use verdict::sheet_verdict;
