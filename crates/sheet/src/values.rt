ghost use Rattle.std.specs.Prelude.{◌≡◌, Option};
ghost use Rattle.std.specs.Option.{option_and_then};
ghost use Rattle.sheet.specs.declared.value.Value.{Value};
ghost use Rattle.sheet.specs.Values.{no_values, value_at, with_value, Converts, number_or};

use crate::key::{KEY_COUNT, Key};
use crate::value::Value;

// The values of a line's fields, each at the place of its key: reading a line takes no memory, so this is no map.
#[derive(Clone, Copy)]
pub struct Values {
    given: [Option<Value>; KEY_COUNT],
}

impl Values {
    // No values yet.
    pub fn none() -> Values
        ensures { result ≡ no_values }
    {
        Values {
            given: [None; KEY_COUNT],
        }
    }

    // The value of a key, if it was given.
    pub fn get(&self, key: Key) -> Option<Value>
        ensures { result ≡ value_at self.now key }
    {
        self.given[key.place()]
    }

    // The values with one of a further key.
    pub fn with(mut self, key: Key, value: Value) -> Values
        ensures { result ≡ with_value self key value }
    {
        self.given[key.place()] = Some(value);
        self
    }

    // The number of a key, if one of this kind was given.
    pub fn number_if_any<T: TryFrom<Value, Error = Value>>(&self, key: Key) -> Option<T>
        ensures { (number_of : Value → Option T) → Converts T.try_from_gives number_of → result ≡ option_and_then number_of (value_at self.now key) }
    {
        self.get(key).and_then(|value| T::try_from(value).ok())
    }

    // The number of a key, nought where none of this kind was given.
    pub fn number<T: TryFrom<Value, Error = Value> + Default>(&self, key: Key) -> T
        ensures { (nought : T) (number_of : Value → Option T) → ((x : T) → T.is_default x → x ≡ nought) → Converts T.try_from_gives number_of → result ≡ number_or nought number_of (value_at self.now key) }
    {
        self.number_if_any(key).unwrap_or_default()
    }
}
