ghost use Rattle.std.specs.Prelude.{◌≡◌, ◌<◌, MatchResult};
ghost use Rattle.rulebook.specs.Centres.{entry_of, pledge_most, lots_for as lots_of};
ghost use Rattle.rulebook.specs.Faults.{PledgeFault};
ghost use Rattle.rulebook.specs.Tables.{pledge_bounded};

use crate::centre::{ClearingCentre, MOST_LOTS};
use crate::fault::OutOfRange;
use crate::table::Table;

const LARGEST_PLEDGE: u64 = 1_000_000_000_000;

const LARGEST_MARGIN: u64 = 1_000_000_000;

// The clearing centre that lets an account's pledge carry as many lots as it has margin for.
#[derive(Clone, Copy, Debug)]
pub struct PledgeCentre {
    pledges: Table<64, 0, LARGEST_PLEDGE>,
    margins: Table<32, 1, LARGEST_MARGIN>,
}

// How many lots of this margin the pledge carries, a million at most.
fn lots_for(pledge: u64, margin: u64) -> u32
    requires { 0 < margin }
    ensures { result ≡ lots_of pledge margin }
{
    (pledge / margin).min(MOST_LOTS) as u32
}

impl PledgeCentre {
    // The centre with these pledges, account n at place n - 1, and margins per lot, contract n at place n - 1; an account
    // without a pledge or a contract without a margin gets 0 lots.
    pub fn new(
        pledges: [Option<u64>; 64],
        margins: [Option<u64>; 32],
    ) -> Result<PledgeCentre, OutOfRange>
        ensures { MatchResult result (λ c. (c.pledges.entries ≡ pledges) × (c.margins.entries ≡ margins)) (PledgeFault pledges margins) }
    {
        let pledges = Table::new(pledges).map_err(OutOfRange::Pledge)?;
        let margins = Table::new(margins).map_err(OutOfRange::Margin)?;
        Ok(PledgeCentre { pledges, margins })
    }
}

impl ClearingCentre for PledgeCentre {
    ghost most = { λ s account contract. pledge_most (entry_of s.pledges.entries account) (entry_of s.margins.entries contract) };

    ghost bounded = { λ s account contract. pledge_bounded (entry_of s.pledges.entries account) (entry_of s.margins.entries contract) };

    fn most_lots(&self, account: u32, contract: u32) -> u32 {
        match (self.pledges.get(account), self.margins.get(contract)) {
            (Some(pledge), Some(margin)) => lots_for(pledge, margin),
            _ => 0,
        }
    }
}
