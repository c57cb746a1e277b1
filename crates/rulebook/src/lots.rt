ghost use Rattle.std.specs.Prelude.{◌≡◌, MatchResult};
ghost use Rattle.rulebook.specs.Centres.{lots_most};
ghost use Rattle.rulebook.specs.Faults.{LotsFault};
ghost use Rattle.rulebook.specs.Tables.{lots_bounded};

use crate::centre::{ClearingCentre, MOST_LOTS};
use crate::fault::OutOfRange;
use crate::table::Table;

// The clearing centre with one number for each contract.
#[derive(Clone, Copy, Debug)]
pub struct LotsCentre {
    limits: Table<32, 0, MOST_LOTS>,
}

impl LotsCentre {
    // The centre with these numbers, contract n at place n - 1; a contract without one gets 0 lots.
    pub fn new(limits: [Option<u64>; 32]) -> Result<LotsCentre, OutOfRange>
        ensures { MatchResult result (λ c. c.limits.entries ≡ limits) (LotsFault limits) }
    {
        let limits = Table::new(limits).map_err(OutOfRange::Limit)?;
        Ok(LotsCentre { limits })
    }
}

impl ClearingCentre for LotsCentre {
    ghost most = { λ s account contract. lots_most s.limits.entries contract };

    ghost bounded = { λ s account contract. lots_bounded s.limits.entries s.limits.within contract };

    fn most_lots(&self, _account: u32, contract: u32) -> u32 {
        self.limits.get(contract).map_or(0, |limit| limit as u32)
    }
}
