ghost use Rattle.std.specs.Prelude.{◌≡◌, true};
ghost use Rattle.records.specs.Ranges.{contract_in_range};

use crate::terms::ContractTerms;

// A contract: terms whose fields all lie in their ranges.
#[derive(Clone, Copy, Debug, PartialEq, Eq)]
pub struct Contract {
    pub terms: ContractTerms,
    ghost ranges: { contract_in_range terms ≡ true },
}
