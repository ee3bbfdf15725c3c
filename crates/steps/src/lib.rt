// Steps: sixteen bytes, decoded, and the tests of their fields.
//
// Every function is total: its definition in specs/ gives a value for every argument of its type.
#![tactic(auto)]

mod decoding;
mod fields;

pub use decoding::{step_at, step_count};
pub use fields::step_fault;

#[derive(Clone, Copy)]
pub struct Step {
    pub tag: u16,
    pub outputs: u16,
    pub mask: u16,
    pub faultjump: u16,
    pub channel: u8,
    pub level: u8,
    pub sequencejump: u16,
    pub timeout: u16,
    pub timeoutjump: u16,
}
