ghost use Rattle.std.specs.Prelude.{◌≡◌, ◌+◌, ◌-◌, ◌*◌, ◌≤◌, pos, neg_ℤ, IfSome, if◌then◌else◌, Some, None};
ghost use Rattle.sheet.specs.Numbers.{digit, up_to, number_up_to, signed_number, value_of};

use crate::number_kind::NumberKind;
use crate::value::Value;

const MOST_NEGATIVE: u64 = 2_147_483_648;

const MOST_POSITIVE: u64 = 2_147_483_647;

// A number with one more digit behind it, if that is not above the most.
fn with_digit(n: u64, byte: u8, most: u64) -> Option<u64>
    ensures { result ≡ (if digit byte then up_to most (Some (n * 10 + (byte - 48))) else None) }
{
    if !byte.is_ascii_digit() {
        return None;
    }
    n.checked_mul(10)?
        .checked_add(u64::from(byte - b'0'))
        .filter(|next| *next <= most)
}

// The number without a sign that a text writes, if it is not above the most.
pub fn number_up_to(most: u64, text: &[u8]) -> Option<u64>
    ensures value { result ≡ number_up_to most text.now }
    ensures within { IfSome result (λ n. n ≤ most) }
{
    if text.is_empty() {
        return None;
    }
    text.iter()
        .try_fold(0, |n, byte| with_digit(n, *byte, most))
}

// The number without a sign that a text writes, if it has 32 bits.
fn unsigned_number(text: &[u8]) -> Option<u32>
    ensures { result ≡ number_up_to 4294967295 text.now }
{
    number_up_to(u64::from(u32::MAX), text).map(|n| n as u32)
}

// So far below nought.
fn below_nought(size: u64) -> i32
    requires { size ≤ 2147483648 }
    ensures { result ≡ neg_ℤ (pos size) }
{
    (-(size as i64)) as i32
}

// The signed number that a text writes, if it has 32 bits.
pub fn signed_number(text: &[u8]) -> Option<i32>
    ensures { result ≡ signed_number text.now }
{
    match text.strip_prefix(b"-") {
        Some(digits) => number_up_to(MOST_NEGATIVE, digits).map(below_nought),
        None => number_up_to(MOST_POSITIVE, text).map(|size| size as i32),
    }
}

// The value that a text writes, if it is a number of this kind. The kind is a case and not a reader that is handed in: a key
// tells it, and so do the definitions.
pub fn value_of(kind: NumberKind, text: &[u8]) -> Option<Value>
    ensures { result ≡ value_of kind text.now }
{
    match kind {
        NumberKind::Unsigned => unsigned_number(text).map(Value::Count),
        NumberKind::Signed => signed_number(text).map(Value::Price),
        NumberKind::Long => number_up_to(u64::MAX, text).map(Value::Amount),
    }
}
