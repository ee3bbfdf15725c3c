// Sheets of steps that wait and then jump to themselves.
ghost use Rattle.std.specs.Prelude.{◌≡◌, length};

const LONGEST: usize = 1040;

// Sixty-five steps with the tags and the outputs 1, 2 and so on: the first six wait 40,000 ticks, the
// rest one.
pub(crate) fn waits() -> [u8; LONGEST] {
    let mut sheet = [0u8; LONGEST];
    for (k, step) in sheet.chunks_exact_mut(16).enumerate() {
        write_step(step, k, if k < 6 { 40000 } else { 1 });
    }
    sheet
}

fn write_step(step: &mut [u8], k: usize, timeout: u16)
    requires { length step.old ≡ 16 }
{
    let tag = (k % 255 + 1) as u8;
    let [low, high] = timeout.to_le_bytes();
    let bytes = [tag, 0, tag, 0, 0, 0, 0, 0, 0, 0, 0, 0, low, high, tag, 0];
    step.copy_from_slice(&bytes);
}

// The same with a fault of each kind: outputs above 1023 in step 2, the tag of step 3 in step 4, and a fault
// jump to a tag that no step has in step 5.
fn faulty() -> [u8; LONGEST] {
    let mut sheet = waits();
    sheet[16 * 2 + 3] = 4;
    sheet[16 * 4] = 4;
    sheet[16 * 5 + 4] = 1;
    sheet[16 * 5 + 6] = 200;
    sheet
}

// The faulty sheet with its first `steps` steps as they should be.
pub(crate) fn mended(steps: usize) -> [u8; LONGEST] {
    let good = waits();
    let mut sheet = faulty();
    let length = steps.min(65) * 16;
    sheet[..length].copy_from_slice(&good[..length]);
    sheet
}
