// Eighty bytes read into settings, by the tables of source 004 as the paper gives them.
//
// `read` is the call. It has no `requires`, and its promise gives the whole answer by a definition of
// `image`.
#![tactic(auto)]

mod codes;
mod reader;

pub use reader::read;
