ghost use Rattle.std.specs.Prelude.{◌≡◌};
ghost use Rattle.sheet.specs.Faults.{told};
ghost use Rattle.sheet.specs.Fields.{field_key, with_text, with_field, with_fields, missing, first_missing};
ghost use Rattle.sheet.specs.Values.{no_values};
ghost use Rattle.sheet.specs.Words.{words};

use crate::bytes::{cut, without_first};
use crate::fault::Fault;
use crate::key::Key;
use crate::keys::key_among;
use crate::numbers::value_of;
use crate::values::Values;
use crate::words::Words;

// The one of these keys that stands before the word's first equals sign.
fn field_key(keys: &[Key], word: &[u8]) -> Option<Key>
    ensures { result ≡ field_key keys.now word.now }
{
    let (name, rest) = cut(word, |byte| byte == b'=');
    if rest.is_empty() {
        None
    } else {
        key_among(keys, name)
    }
}

// The values with that of a key, which a text writes.
fn with_text<'l>(values: Values, key: Key, text: &'l [u8]) -> Result<Values, Fault<&'l [u8]>>
    ensures { told result ≡ with_text values key text.now }
{
    if values.get(key).is_some() {
        return Err(Fault::Repeated(key));
    }
    let value = value_of(key.kind(), text).ok_or(Fault::NotANumber(key))?;
    Ok(values.with(key, value))
}

// The values with that of a field, whose key is one of those that the entry takes.
fn with_field<'l>(keys: &[Key], values: Values, word: &'l [u8]) -> Result<Values, Fault<&'l [u8]>>
    ensures { told result ≡ with_field keys.now values word.now }
{
    let (name, rest) = cut(word, |byte| byte == b'=');
    let key = field_key(keys, word).ok_or(Fault::UnknownKey(name))?;
    with_text(values, key, without_first(rest))
}

// The values of a line's fields, or the fault of the first word that has one.
pub fn read_fields<'l>(keys: &[Key], line: &'l [u8]) -> Result<Values, Fault<&'l [u8]>>
    ensures { told result ≡ with_fields keys.now no_values (words line.now) }
{
    let mut values = Values::none();
    for word in Words(line) {
        values = with_field(keys, values, word)?;
    }
    Ok(values)
}

fn is_missing(key: Key, values: &Values) -> bool
    ensures { result ≡ missing values.now key }
{
    key.is_needed() && values.get(key).is_none()
}

// The first of these keys that is needed and has no value.
pub fn first_missing(keys: &[Key], values: &Values) -> Option<Key>
    ensures { result ≡ first_missing keys.now values.now }
{
    keys.iter().copied().find(|key| is_missing(*key, values))
}
