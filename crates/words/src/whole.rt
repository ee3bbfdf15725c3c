// Records of one width, one after the other.
ghost use Rattle.std.specs.Prelude.{◌≡◌};
ghost use Rattle.records.specs.Lists.{whole_records};

// 1 to 63 records of so many bytes, and nothing else; no record is of no width.
#[tactic(auto, unfolding(records::specs::Lists::whole_records))]
pub fn is_whole(bytes: &[u8], width: usize) -> bool
    ensures { result ≡ whole_records width bytes.now }
{
    let length = bytes.len();
    0 < width && width <= length && length <= width.saturating_mul(63) && length % width == 0
}
