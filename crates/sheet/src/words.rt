ghost use Rattle.std.specs.Prelude.{◌≡◌, ◌<◌, [], ◌∷◌, length, IfSome, MatchOption};
ghost use Rattle.std.specs.Iterator.{YieldsFirstRef, item_count};
ghost use Rattle.sheet.specs.Bytes.{ink, from_first};
ghost use Rattle.sheet.specs.Words.{words};

use crate::bytes::{cut, is_blank};

// The words that are left of a line.
#[derive(Clone, Copy)]
pub struct Words<'l>(pub &'l [u8]);

impl<'l> Iterator for Words<'l> {
    type Item = &'l [u8];

    ghost next_gives = { YieldsFirstRef (λ s. words s.0.now) };

    ghost remaining = { item_count (λ s. words s.0.now) };

    fn next(&mut self) -> Option<&'l [u8]> {
        let (word, rest) = first_word(self.0)?;
        self.0 = rest;
        Some(word)
    }
}

// A line from its first word on, so that what goes over it more than once goes over the blanks in front only here.
pub(crate) fn from_first_word(line: &[u8]) -> &[u8]
    ensures text { result.now ≡ from_first ink line.now }
    ensures same { words result.now ≡ words line.now }
{
    cut(line, |byte| !is_blank(byte)).1
}

// The first word of a line, and what stands behind it.
pub fn first_word(line: &[u8]) -> Option<(&[u8], &[u8])>
    ensures value { MatchOption result (words line.now ≡ []) (λ p. words line.now ≡ p.0.now ∷ words p.1.now) }
    ensures shorter { IfSome result (λ p. length p.1.now < length line.now) }
{
    let inked = from_first_word(line);
    if inked.is_empty() {
        return None;
    }
    Some(cut(inked, is_blank))
}
