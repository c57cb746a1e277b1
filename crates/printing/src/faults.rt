ghost use Rattle.std.specs.Prelude.{◌≡◌, ◌<◌, map, IfOk, Some, string_bytes};
ghost use Rattle.sheet.specs.Faults.{fault_told};
ghost use Rattle.printing.specs.Faults.{printable, fault_text, fault_line};

use sheet::fault::Fault;
use std::alloc::{AllocError, Global};
use std::fmt;

// A byte as it is printed: a visible sign of ASCII is itself, any other a question mark.
fn visible(byte: u8) -> u8
    ensures value { result ≡ printable byte }
    ensures ascii { result < 128 }
{
    if byte.is_ascii_graphic() { byte } else { b'?' }
}

// A piece of a line.
#[derive(Clone, Copy)]
struct Piece<'l>(&'l [u8]);

impl fmt::Display for Piece<'_> {
    ghost output = { λ p. Some (map printable p.0.now) };

    fn fmt<W: fmt::Write>(&self, f: &mut fmt::Formatter<W>) -> fmt::Result {
        for byte in self.0 {
            let sign = char::from(visible(*byte));
            write!(f, "{sign}")?;
        }
        Ok(())
    }
}

// What is wrong with a line, in words.
#[derive(Clone, Copy)]
struct FaultText<'l>(Fault<&'l [u8]>);

impl fmt::Display for FaultText<'_> {
    ghost output = { λ t. Some (fault_text (fault_told t.0)) };

    fn fmt<W: fmt::Write>(&self, f: &mut fmt::Formatter<W>) -> fmt::Result {
        match self.0 {
            Fault::UnknownName(word) => write!(f, "unknown entry `{}`", Piece(word)),
            Fault::UnknownKey(word) => write!(f, "unknown key `{}`", Piece(word)),
            Fault::Repeated(key) => write!(f, "key `{}` twice", key.name()),
            Fault::Missing(key) => write!(f, "missing key `{}`", key.name()),
            Fault::NotANumber(key) => write!(f, "no such number for `{}`", key.name()),
            Fault::TooLate => write!(f, "set-up after the first call or question"),
            Fault::TwoCentres => write!(f, "set-up of two clearing centres"),
            Fault::OutOfRange(key) => write!(f, "`{}` out of range", key.name()),
        }
    }
}

// The line that is printed of a line that is no entry.
pub fn line_of_fault(heap: Global, number: usize, fault: Fault<&[u8]>) -> Result<String, AllocError>
    ensures { IfOk result (λ text. string_bytes text ≡ fault_line number (fault_told fault.entry)) }
{
    let words = FaultText(fault);
    format!(in heap; "{number}: unreadable: {words}\n")
}
