ghost use Rattle.std.specs.Prelude.{◌≡◌};
ghost use Rattle.records.specs.Ranges.{between, absent_or_between, price_in_range, prices_in_order, bounds_in_order, contract_in_range, instrument_in_range, account_in_range, ticket_fields_in_range};

use crate::codes::{Direction, OrderType};
use crate::terms::{AccountTerms, ContractTerms, InstrumentTerms, Ticket};

// The greatest underlying, participant, taxpayer, addressee and reference.
const LARGEST_CODE: u32 = 65_535;
// The greatest date, a last trading day and an expiry date among them.
const LAST_DATE: u32 = 100_000;
// The greatest price, limit or bound; the least is its opposite.
const PRICE_RANGE: i32 = 1_000_000;
// The greatest W and R.
const LARGEST_FACTOR: u32 = 1_000;

const LARGEST_KIND: u32 = 255;

const MOST_CONTRACTS: u32 = 32;

const LARGEST_SIZE: u32 = 10_000;

fn is_between(low: u32, high: u32, n: u32) -> bool
    ensures { result ≡ between low high n }
{
    low <= n && n <= high
}

fn is_absent_or_between(low: u32, high: u32, n: Option<u32>) -> bool
    ensures { result ≡ absent_or_between low high n }
{
    n.is_none_or(|n| is_between(low, high, n))
}

fn is_price(p: i32) -> bool
    ensures { result ≡ price_in_range p }
{
    -PRICE_RANGE <= p && p <= PRICE_RANGE
}

// Whether two bounds lie in their ranges, the lower not above the upper.
fn are_bounds_in_order(lower: i32, upper: i32) -> bool
    ensures { result ≡ bounds_in_order lower upper }
{
    is_price(lower) && is_price(upper) && lower <= upper
}

// Whether a settlement price and its limits lie in their ranges, the settlement price between the limits.
pub fn are_prices_in_order(lower: i32, settlement: i32, upper: i32) -> bool
    ensures { result ≡ prices_in_order lower settlement upper }
{
    if !are_bounds_in_order(lower, upper) || !is_price(settlement) {
        return false;
    }
    lower <= settlement && settlement <= upper
}

impl ContractTerms {
    pub fn are_in_range(&self) -> bool
        ensures { result ≡ contract_in_range self.now }
    {
        if !is_between(1, LARGEST_CODE, self.underlying)
            || !is_between(1, LAST_DATE, self.last_day)
        {
            return false;
        }
        are_prices_in_order(self.lower, self.settlement, self.upper)
            && is_between(1, LARGEST_FACTOR, self.w)
            && is_between(1, LARGEST_FACTOR, self.r)
    }
}

impl InstrumentTerms {
    pub fn are_in_range(&self) -> bool
        ensures { result ≡ instrument_in_range self.now }
    {
        is_between(1, LARGEST_KIND, self.kind)
            && is_between(1, MOST_CONTRACTS, self.first)
            && is_absent_or_between(1, MOST_CONTRACTS, self.second)
            && are_bounds_in_order(self.lower, self.upper)
    }
}

impl AccountTerms {
    pub fn are_in_range(&self) -> bool
        ensures { result ≡ account_in_range self.now }
    {
        is_between(1, LARGEST_CODE, self.participant) && is_between(1, LARGEST_CODE, self.taxpayer)
    }
}

impl Ticket {
    // Whether each field, taken alone, lies in its range. Which fields may stand together, and whether account and
    // instrument are known, is not asked here.
    pub fn fields_in_range(&self) -> bool
        ensures { result ≡ ticket_fields_in_range self.now }
    {
        Direction::try_from(self.direction).is_ok()
            && OrderType::try_from(self.order_type).is_ok()
            && is_between(1, LARGEST_SIZE, self.size)
            && is_absent_or_between(1, LARGEST_CODE, self.addressee)
            && is_absent_or_between(1, LARGEST_CODE, self.reference)
            && is_absent_or_between(1, LAST_DATE, self.expiry)
    }
}
