// A byte's fields, taken apart and put together by shifts and masks (a form of the paper).
//
// Every function is total: its definition in `records` gives a value for every argument of its type.
#![tactic(auto)]

ghost use Rattle.std.specs.Prelude.{◌≡◌, ◌-◌, ◌^◌, ◌<◌};
ghost use Rattle.records.specs.Bits.{bits, joined};

// The `width` bits of a byte that begin at bit `low`: 0 where no such bit is there.
#[tactic(auto, using(records::proofs::BitLaws::bits_wide, records::proofs::BitLaws::bits_masked))]
pub fn field(byte: u8, low: u8, width: u8) -> u8
    ensures { result ≡ bits byte low width }
{
    if low >= 8 {
        return 0;
    }
    if width >= 8 {
        return byte >> low;
    }
    (byte >> low) & mask(width)
}

// Bit k of a word, 0 past its last.
#[tactic(auto, unfolding(records::specs::Bits::bits))]
pub fn word_bit(word: u16, k: u8) -> u8
    ensures { result ≡ bits word k 1 }
{
    if k >= 16 {
        return 0;
    }
    ((word >> k) % 2) as u8
}

// The byte whose lowest `low` bits are those of `rest`, and whose bits above are `value`.
#[tactic(auto, using(records::proofs::BitLaws::joined_past, records::proofs::BitLaws::joined_masked))]
pub fn join(value: u8, low: u8, rest: u8) -> u8
    ensures { result ≡ joined value low rest }
{
    if low >= 8 {
        return rest;
    }
    (value << low) | (rest & mask(low))
}

// As many ones as `width` says, below 8.
#[tactic(auto, using(records::proofs::BitLaws::one_shifted))]
fn mask(width: u8) -> u8
    requires { width < 8 }
    ensures { result ≡ 2 ^ width - 1 }
{
    (1 << width) - 1
}
