ghost use Rattle.std.specs.Prelude.{◌≡◌, ◌+◌, ◌*◌, ◌<◌, ◌≤◌, pos, ◌-ℤ◌, int_div, unsigned_abs};
ghost use Rattle.books.specs.Value.{value_at, difference_at, change_at};

use records::contract::Contract;

// Rounded towards nought.
fn divided(n: i64, r: u32) -> i64
    requires { (0 < r) × (unsigned_abs n ≤ 2147483648000) }
    ensures { result ≡ int_div n (pos r) }
{
    n / i64::from(r)
}

// The value of a price in a contract: the price times W, divided by R, rounded towards nought.
pub fn value_in(contract: &Contract, price: i32) -> i64
    ensures value { result ≡ value_at contract.now price }
    ensures bound { unsigned_abs result ≤ 1000 * unsigned_abs price }
{
    divided(
        i64::from(price) * i64::from(contract.terms.w),
        contract.terms.r,
    )
}

fn less(a: i64, b: i64) -> i64
    requires { (unsigned_abs a ≤ 2147483648000) × (unsigned_abs b ≤ 2147483648000) }
    ensures { result ≡ a -ℤ b }
{
    a - b
}

// The value of one price less the value of another.
fn gained(contract: &Contract, to: i32, from: i32) -> i64
    ensures value { result ≡ value_at contract.now to -ℤ value_at contract.now from }
    ensures bound { unsigned_abs result ≤ 1000 * unsigned_abs to + 1000 * unsigned_abs from }
{
    less(value_in(contract, to), value_in(contract, from))
}

// The value of a contract's settlement price less the value of another price: what a lot bought at that price gains.
pub fn difference_in(contract: &Contract, price: i32) -> i64
    ensures value { result ≡ difference_at contract.now price }
    ensures bound { unsigned_abs price ≤ 2000000 → unsigned_abs result ≤ 3000000000 }
{
    gained(contract, contract.terms.settlement, price)
}

// The value of a new settlement price less the value of a contract's present one: what a lot held gains by it.
pub fn change_in(contract: &Contract, settlement: i32) -> i64
    ensures value { result ≡ change_at contract.now settlement }
    ensures bound { unsigned_abs settlement ≤ 1000000 → unsigned_abs result ≤ 2000000000 }
{
    gained(contract, settlement, contract.terms.settlement)
}
