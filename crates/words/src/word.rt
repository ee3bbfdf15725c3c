// "Numbers of several bytes have the low byte first."
ghost use Rattle.std.specs.Prelude.{◌≡◌, get_or};
ghost use Rattle.records.specs.Words.{word_at, bit_word};

// The word of two bytes at a place; a byte past the end counts as 0.
#[tactic(auto, unfolding(records::specs::Words::word_at))]
pub fn word_at(bytes: &[u8], at: usize) -> u16
    ensures { result ≡ word_at bytes.now at }
{
    let next = at.saturating_add(1);
    u16::from_le_bytes([byte_at(bytes, at), byte_at(bytes, next)])
}

// The byte at a place, 0 past the end.
pub fn byte_at(bytes: &[u8], at: usize) -> u8
    ensures { result ≡ get_or bytes.now at 0 }
{
    bytes.get(at).copied().unwrap_or(0)
}

// The word with bit k alone where it is on; with no bit where it is off, or past bit 15.
#[tactic(auto, using(crate::proofs::BitLaws::bit_past), unfolding(records::specs::Words::bit_word))]
pub fn bit(on: bool, k: usize) -> u16
    ensures { result ≡ bit_word on k }
{
    if on && k < 16 { 1 << k } else { 0 }
}
