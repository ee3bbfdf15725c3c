// Answers packed into one number, as include/wrackbasket.h explains its bits.
//
// Every function is total: its definition in specs/ gives a value for every argument of its type.
#![tactic(auto)]

ghost use Rattle.std.specs.Prelude.{◌≡◌};
ghost use Rattle.packing.specs.Packed.{packed_parts, packed_tick, packed_words};

use detectors::Detected;
use engine::Ticked;
use records::Verdict;

// A verdict with a number of cells.
pub fn packed(verdict: Verdict, cells: u8) -> u32
    ensures { result ≡ packed_parts verdict cells }
{
    verdict.number as u32 + 256 * cells as u32 + 65536 * (verdict.place % 65536) as u32
}

// What a tick or a show answers, but for its state.
pub fn packed_tick(ticked: Ticked) -> u64
    ensures { result ≡ packed_tick ticked }
{
    let verdict = ticked.verdict;
    verdict.number as u64
        + 256 * ticked.step as u64
        + 65536 * ticked.outputs as u64
        + 4294967296 * (verdict.place % 2147483648) as u64
}

// The words of the detectors, with their verdict.
pub fn packed_words(detected: Detected) -> u64
    ensures { result ≡ packed_words detected }
{
    let verdict = detected.verdict;
    verdict.number as u64
        + 256 * (verdict.place % 256) as u64
        + 65536 * detected.faults as u64
        + 4294967296 * detected.warnings as u64
}
