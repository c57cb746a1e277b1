ghost use Rattle.std.specs.Prelude.{◌≡◌};
ghost use Rattle.sheet.specs.Entries.{remark, entry_with, line_read};
ghost use Rattle.sheet.specs.Faults.{told};
ghost use Rattle.sheet.specs.Words.{words};

use crate::entry::Entry;
use crate::fault::Fault;
use crate::fields::{first_missing, read_fields};
use crate::making::entry_of;
use crate::name::Name;
use crate::names::name_of;
use crate::words::Words;

// A remark begins with the sign #.
fn is_remark(word: &[u8]) -> bool
    ensures { result ≡ remark word.now }
{
    word.first() == Some(&b'#')
}

// The entry of a name, with its fields.
fn entry_with<'l>(name: Name, fields: &'l [u8]) -> Result<Entry, Fault<&'l [u8]>>
    ensures { told result ≡ entry_with name (words fields.now) }
{
    let values = read_fields(name.keys(), fields)?;
    match first_missing(name.keys(), &values) {
        Some(key) => Err(Fault::Missing(key)),
        None => Ok(entry_of(name, &values)),
    }
}

// What a line says: an entry; nothing, where it has no words or is a remark; or the fault for which it is no entry.
pub fn read_line(line: &[u8]) -> Result<Option<Entry>, Fault<&[u8]>>
    ensures { told result ≡ line_read line.now }
{
    let Some(word) = Words(line).next() else {
        return Ok(None);
    };
    if is_remark(word) {
        return Ok(None);
    }
    let (name, fields) = name_of(line).ok_or(Fault::UnknownName(word))?;
    entry_with(name, fields).map(Some)
}
