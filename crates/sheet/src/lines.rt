ghost use Rattle.std.specs.Prelude.{◌≡◌, ◌<◌, length};
ghost use Rattle.sheet.specs.Words.{without_return, first_line, after_line};

use crate::bytes::{cut, without_first};

// A line without the one carriage return that may stand at its end.
fn without_return(line: &[u8]) -> &[u8]
    ensures { result.now ≡ without_return line.now }
{
    line.strip_suffix(b"\r").unwrap_or(line)
}

// The first line of a text and what stands behind it. The line ends at a line feed, which belongs to neither, or with the
// text; one carriage return at its end is dropped.
pub fn next_line(text: &[u8]) -> (&[u8], &[u8])
    ensures line { result.0.now ≡ first_line text.now }
    ensures rest { result.1.now ≡ after_line text.now }
    ensures shorter { 0 < length text.now → length result.1.now < length text.now }
{
    let (line, rest) = cut(text, |byte| byte == b'\n');
    (without_return(line), without_first(rest))
}
