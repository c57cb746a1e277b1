ghost use Rattle.std.specs.Prelude.{◌≡◌, ℕ, ◌≤◌};
ghost use Rattle.rulebook.specs.Centres.{most_lots};

// The most lots that any centre tells.
pub(crate) const MOST_LOTS: u64 = 1_000_000;

// Who tells how far an account may go. Asking changes nothing, and equal questions get equal numbers.
pub trait ClearingCentre {
    // the most lots, by the numbers of an account and a contract
    ghost most: { Self → ℕ → ℕ → ℕ };

    // The most lots that the account may be long or short in the contract.
    fn most_lots(&self, account: u32, contract: u32) -> u32
        ensures { result ≡ most self.now account contract };

    ghost bounded: { (s : Self) (account contract : ℕ) → most s account contract ≤ most_lots };
}
