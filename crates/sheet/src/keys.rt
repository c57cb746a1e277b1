ghost use Rattle.std.specs.Prelude.{◌≡◌, ◌<◌, length};
ghost use Rattle.sheet.specs.Keys.{key_name, all_keys, place, key_kind, needed, key_among, KeyOf};

use crate::key::{KEY_COUNT, Key};
use crate::number_kind::NumberKind;

// Every key.
const ALL_KEYS: [Key; KEY_COUNT] = [
    Key::Orders,
    Key::Trades,
    Key::Contract,
    Key::Limit,
    Key::Account,
    Key::Amount,
    Key::Underlying,
    Key::LastDay,
    Key::Lower,
    Key::Settlement,
    Key::Upper,
    Key::W,
    Key::R,
    Key::Kind,
    Key::First,
    Key::Second,
    Key::Participant,
    Key::Taxpayer,
    Key::Instrument,
    Key::Direction,
    Key::OrderType,
    Key::Price,
    Key::Size,
    Key::Addressee,
    Key::Reference,
    Key::Expiry,
    Key::Order,
    Key::Date,
    Key::Number,
];

// The first of these keys that is written so.
pub fn key_among(keys: &[Key], text: &[u8]) -> Option<Key>
    ensures { result ≡ key_among keys.now text.now }
{
    keys.iter()
        .copied()
        .find(|key| key.name().as_bytes() == text)
}

impl Key {
    // How the key is written. It is compared with bytes of a line, so it is a text and no `Display`.
    pub fn name(self) -> &'static str
        ensures { result.now ≡ key_name self }
    {
        match self {
            Key::Orders => "orders",
            Key::Trades => "trades",
            Key::Contract => "contract",
            Key::Limit => "limit",
            Key::Account => "account",
            Key::Amount => "amount",
            Key::Underlying => "underlying",
            Key::LastDay => "last-day",
            Key::Lower => "lower",
            Key::Settlement => "settlement",
            Key::Upper => "upper",
            Key::W => "w",
            Key::R => "r",
            Key::Kind => "kind",
            Key::First => "first",
            Key::Second => "second",
            Key::Participant => "participant",
            Key::Taxpayer => "taxpayer",
            Key::Instrument => "instrument",
            Key::Direction => "direction",
            Key::OrderType => "type",
            Key::Price => "price",
            Key::Size => "size",
            Key::Addressee => "addressee",
            Key::Reference => "reference",
            Key::Expiry => "expiry",
            Key::Order => "order",
            Key::Date => "date",
            Key::Number => "number",
        }
    }

    // The key that is written so, if there is one. There is nothing to tell of another text, so this is no `TryFrom`.
    pub fn from_name(text: &[u8]) -> Option<Key>
        ensures value { result ≡ key_among all_keys text.now }
        ensures known { KeyOf text.now result }
    {
        key_among(&ALL_KEYS, text)
    }

    // The key's place among all keys.
    pub(crate) fn place(self) -> usize
        ensures value { result ≡ place self }
        ensures within { result < length all_keys }
    {
        self as usize
    }

    // The kind of number that a field with this key takes.
    pub(crate) fn kind(self) -> NumberKind
        ensures { result ≡ key_kind self }
    {
        match self {
            Key::Lower | Key::Settlement | Key::Upper | Key::Price => NumberKind::Signed,
            Key::Orders | Key::Trades | Key::Amount => NumberKind::Long,
            _ => NumberKind::Unsigned,
        }
    }

    // Whether an entry that takes this key needs it.
    pub(crate) fn is_needed(self) -> bool
        ensures { result ≡ needed self }
    {
        !matches!(
            self,
            Key::Second | Key::Addressee | Key::Reference | Key::Expiry
        )
    }
}
