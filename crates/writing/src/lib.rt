// Settings written to the eighty bytes of a configuration image, by the tables that it is read by.
//
// `write` and `settings_verdict` are the calls. None has a `requires`, and each promise
// gives the whole answer and every byte of the lent buffer by a definition of specs/.
#![tactic(auto)]

mod codes;
mod encoder;
mod writer;

pub use writer::{settings_verdict, write};
