ghost use Rattle.std.specs.Prelude.{◌≡◌, ℕ, Bool, drop};
ghost use Rattle.std.specs.List.{before_first};
ghost use Rattle.sheet.specs.Bytes.{blank, Answers, from_first};

// Words are separated by spaces and tabs.
pub fn is_blank(byte: u8) -> bool
    ensures { result ≡ blank byte }
{
    byte == b' ' || byte == b'\t'
}

// What stands in a text before its first byte that passes a test, and the text from that byte on.
pub fn cut<P: Fn(u8) -> bool>(text: &[u8], passes: P) -> (&[u8], &[u8])
    requires { P.IsAlwaysCallable passes }
    ensures front { (test : ℕ → Bool) → Answers P.Fn test passes → result.0.now ≡ before_first test text.now }
    ensures behind { (test : ℕ → Bool) → Answers P.Fn test passes → result.1.now ≡ from_first test text.now }
{
    let n = text
        .iter()
        .position(|byte| passes(*byte))
        .unwrap_or(text.len());
    text.split_at(n)
}

// A text without its first byte, if it has one.
pub fn without_first(text: &[u8]) -> &[u8]
    ensures { result.now ≡ drop 1 text.now }
{
    match text {
        [_, after @ ..] => after,
        [] => text,
    }
}
