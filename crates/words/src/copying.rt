// Bytes put in the place of as many others.
ghost use Rattle.std.specs.Prelude.{◌≡◌};
ghost use Rattle.records.specs.Lists.{copied};

// Where the two differ in length, nothing is written.
pub fn copy(bytes: &[u8], part: &mut [u8])
    ensures { part.new ≡ copied bytes.now part.old }
{
    if part.len() != bytes.len() {
        return;
    }
    let count = bytes.len();
    for i in 0..count {
        part[i] = bytes[i];
    }
}
