ghost use Rattle.std.specs.Prelude.{◌≡◌};
ghost use Rattle.std.specs.Option.{ok_or};
ghost use Rattle.sheet.specs.Values.{count_of, price_of, amount_of};

// A field's value, of one of the kinds of number.
#[derive(Clone, Copy, Debug, PartialEq, Eq)]
pub enum Value {
    Count(u32),
    Price(i32),
    Amount(u64),
}

// A value of another kind is given back.
impl TryFrom<Value> for u32 {
    type Error = Value;

    ghost try_from_gives = { λ value r. r ≡ ok_or (count_of value) value };

    fn try_from(value: Value) -> Result<u32, Value> {
        match value {
            Value::Count(n) => Ok(n),
            _ => Err(value),
        }
    }
}

impl TryFrom<Value> for i32 {
    type Error = Value;

    ghost try_from_gives = { λ value r. r ≡ ok_or (price_of value) value };

    fn try_from(value: Value) -> Result<i32, Value> {
        match value {
            Value::Price(p) => Ok(p),
            _ => Err(value),
        }
    }
}

impl TryFrom<Value> for u64 {
    type Error = Value;

    ghost try_from_gives = { λ value r. r ≡ ok_or (amount_of value) value };

    fn try_from(value: Value) -> Result<u64, Value> {
        match value {
            Value::Amount(n) => Ok(n),
            _ => Err(value),
        }
    }
}
