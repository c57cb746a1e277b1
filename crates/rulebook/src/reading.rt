ghost use Rattle.std.specs.Prelude.{◌≡◌};
ghost use Rattle.rulebook.specs.Reading.{terms_at, leg_terms, listing_at};

use crate::legs::{Leg, Legs};
use crate::listing::Listing;
use records::contract::Contract;
use records::numbering::record_of;
use records::terms::ContractTerms;

// The terms of the contract of this number; one that is not listed reads as noughts.
pub fn terms_at(contracts: &[Contract], number: u32) -> ContractTerms
    ensures { result ≡ terms_at contracts.now number }
{
    record_of(contracts, number as usize)
        .map(|contract| contract.terms)
        .unwrap_or_default()
}

// The terms of each leg's contract.
pub fn leg_terms(contracts: &[Contract], legs: &Legs<Leg>) -> Legs<ContractTerms>
    ensures { result ≡ leg_terms contracts.now legs.now }
{
    legs.map(|leg| terms_at(contracts, leg.contract))
}

// What admission may rest on of the contract of this number, if it is listed.
pub fn listing_at(contracts: &[Contract], number: u32) -> Option<Listing>
    ensures { result ≡ listing_at contracts.now number }
{
    record_of(contracts, number as usize).map(|contract| Listing {
        underlying: contract.terms.underlying,
        last_day: contract.terms.last_day,
    })
}
