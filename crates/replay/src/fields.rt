// The fields of a part of a case, one after the other.
use records::{Refusal, Verdict};

// What is left of the part. A byte past its end counts as 0, and then nothing is left, not even no byte.
#[derive(Drop)]
pub(crate) struct Fields<'a> {
    rest: Option<&'a [u8]>,
}

impl<'a> Fields<'a> {
    pub(crate) fn new(bytes: &'a [u8]) -> Fields<'a> {
        Fields { rest: Some(bytes) }
    }

    pub(crate) fn byte(&mut self) -> u8 {
        let Some((first, rest)) = self.rest.and_then(|rest| rest.split_first()) else {
            self.rest = None;
            return 0;
        };
        self.rest = Some(rest);
        *first
    }

    pub(crate) fn word(&mut self) -> u16 {
        let low = self.byte();
        u16::from_le_bytes([low, self.byte()])
    }

    pub(crate) fn flag(&mut self) -> bool {
        self.byte() == 1
    }

    pub(crate) fn rest(&self) -> Option<&'a [u8]> {
        self.rest
    }

    pub(crate) fn has_verdict<T: Copy>(&mut self, answer: Result<T, Refusal>) -> bool {
        let verdict = Verdict::of(answer);
        (self.byte() == verdict.number) & (self.word() as usize == verdict.place)
    }

    // Whether these bytes come next.
    pub(crate) fn has_bytes(&mut self, bytes: &[u8]) -> bool {
        bytes.iter().all(|byte| self.byte() == *byte)
    }

    // Whether these bytes, and no others, are left.
    pub(crate) fn ends_with(&self, bytes: &[u8]) -> bool {
        self.rest.is_some_and(|rest| rest == bytes)
    }
}
