// How many keys there are.
pub(crate) const KEY_COUNT: usize = 29;

// The keys of a sheet's fields.
#[derive(Clone, Copy, Debug, PartialEq, Eq)]
pub enum Key {
    Orders,
    Trades,
    Contract,
    Limit,
    Account,
    Amount,
    Underlying,
    LastDay,
    Lower,
    Settlement,
    Upper,
    W,
    R,
    Kind,
    First,
    Second,
    Participant,
    Taxpayer,
    Instrument,
    Direction,
    OrderType,
    Price,
    Size,
    Addressee,
    Reference,
    Expiry,
    Order,
    Date,
    Number,
}
