ghost use Rattle.std.specs.Prelude.{◌≡◌, true};
ghost use Rattle.records.specs.Ranges.{account_in_range};

use crate::terms::AccountTerms;

// Who holds an account: terms whose fields all lie in their ranges.
#[derive(Clone, Copy, Debug, PartialEq, Eq)]
pub struct Holder {
    pub terms: AccountTerms,
    ghost ranges: { account_in_range terms ≡ true },
}
