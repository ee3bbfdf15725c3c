// A line of text, built by value: what a program prints is proved here, and only the writing of it
// is left to the program.
//
// Every function is total. A line holds 256 bytes: what does not fit is left out.
#![tactic(auto)]

ghost use Rattle.std.specs.Prelude.{◌∷◌, ◌≡◌, length};
ghost use Rattle.io.specs.Counts.{IsPrefixLen};
ghost use Rattle.text.specs.Text.{empty_line, appended, written, decimal_text, hex_text};

// The first `length` bytes, and all of them where that is more, stand in the line. An array and a length, and no
// `Vec` or `String`: no program here takes memory from a heap.
#[derive(Clone, Copy)]
pub struct Line {
    pub bytes: [u8; 256],
    pub length: usize,
}

pub fn empty() -> Line
    ensures { result ≡ empty_line }
{
    Line {
        bytes: [0; 256],
        length: 0,
    }
}

impl Line {
    // How many bytes stand in the line.
    #[tactic(auto, unfolding(crate::specs::Text::written))]
    pub fn count(self) -> usize
        ensures prefix_len { IsPrefixLen result self.bytes }
        ensures value { result ≡ length (written self) }
    {
        self.length.min(256)
    }

    // The text after what stands in the line.
    pub fn word(self, text: &[u8]) -> Line
        ensures { result ≡ appended self text.now }
    {
        let start = self.count();
        let count = text.len().min(256 - start);
        let mut bytes = self.bytes;
        bytes[start..start + count].copy_from_slice(&text[..count]);
        Line {
            bytes,
            length: start + count,
        }
    }

    // The number in decimal. The crate `io` spells the digits, and its contract names each of them: `write!` asks for a
    // writer over the line, and is no plainer.
    #[tactic(auto, using(crate::proofs::TextLaws::decimal_fewest))]
    pub fn decimal(self, number: u64) -> Line
        ensures { result ≡ appended self (decimal_text number) }
    {
        let mut digits = [0u8; 20];
        let count = io::decimal(number, &mut digits);
        self.word(&digits[..count])
    }

    // A space and the number in decimal.
    #[tactic(auto, using(crate::proofs::TextLaws::appended_twice))]
    pub fn item(self, number: u64) -> Line
        ensures { result ≡ appended self (32 ∷ decimal_text number) }
    {
        self.word(b" ").decimal(number)
    }

    // The number in hexadecimal, with zeros in front up to `width` digits.
    #[tactic(auto, using(crate::proofs::TextLaws::hex_fewest))]
    pub fn hex(self, number: u64, width: usize) -> Line
        ensures { result ≡ appended self (hex_text width number) }
    {
        let mut digits = [0u8; 16];
        let count = io::hex(number, width, &mut digits);
        self.word(&digits[..count])
    }
}
