// Words of two bytes, single bits of a word, and copies of bytes.
//
// Every function is total: its definition in `records` gives a value for every argument of its type.
#![tactic(auto)]

mod copying;
mod whole;
mod word;

pub use copying::copy;
pub use whole::is_whole;
pub use word::{bit, byte_at, word_at};
