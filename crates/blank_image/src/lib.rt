// The blank image, handed out by value.
#![tactic(auto)]

ghost use Rattle.std.specs.Prelude.{◌≡◌};
ghost use Rattle.blank_image.specs.Blank.{blank_image};

// Eighty zero bytes.
#[tactic(auto, unfolding(crate::specs::Blank::blank_image))]
pub fn blank() -> [u8; 80]
    ensures { result ≡ blank_image }
{
    [0; 80]
}
