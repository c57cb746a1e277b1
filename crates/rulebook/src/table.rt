ghost use Rattle.std.specs.Prelude.{◌≡◌, not, true, position, MatchResult};
ghost use Rattle.records.specs.Ranges.{absent_or_between};
ghost use Rattle.rulebook.specs.Centres.{InRange, Outside, entry_of};

use records::numbering::record_of;

// A number, or none, for each account or contract: that of number n at place n - 1. Every one that is there lies between
// LOW and HIGH.
#[derive(Clone, Copy, Debug)]
pub(crate) struct Table<const N: usize, const LOW: u64, const HIGH: u64> {
    pub(crate) entries: [Option<u64>; N],
    ghost within: { InRange LOW HIGH entries },
}

impl<const N: usize, const LOW: u64, const HIGH: u64> Table<N, LOW, HIGH> {
    // The table of these entries, or the number of the first that is out of range. Inlined, so that the entries are moved less.
    #[inline(always)]
    pub(crate) fn new(entries: [Option<u64>; N]) -> Result<Table<N, LOW, HIGH>, usize>
        ensures { MatchResult result (λ t. t.entries ≡ entries.entry) (λ n. Outside LOW HIGH entries.entry n) }
    {
        match first_outside(&entries, LOW, HIGH) {
            Some(place) => Err(place + 1),
            None => Ok(Table { entries }),
        }
    }

    // The entry of this number, if there is one.
    pub(crate) fn get(&self, number: u32) -> Option<u64>
        ensures value { result ≡ entry_of self.now.entries number }
        ensures range { absent_or_between LOW HIGH result ≡ true }
    {
        record_of(&self.entries, number as usize).flatten()
    }
}

// The place of the first entry that is there and is not between `low` and `high`.
fn first_outside(entries: &[Option<u64>], low: u64, high: u64) -> Option<usize>
    ensures { result ≡ position (λ e. not (absent_or_between low high e)) entries.now }
{
    entries
        .iter()
        .position(|entry| entry.is_some_and(|n| !(low..=high).contains(&n)))
}
