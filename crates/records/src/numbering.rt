ghost use Rattle.std.specs.Prelude.{◌≡◌, ℕ, ◌+◌, ◌^◌, ◌<◌, MatchOption};
ghost use Rattle.records.specs.Registers.{numbered};

// The place of the record of this number, if there is one.
pub(crate) fn place_of(number: usize, count: usize) -> Option<usize>
    ensures { MatchOption result ((at : ℕ) → at + 1 ≡ number → at < count → ⊥) (λ at. (at + 1 ≡ number) × (at < count)) }
{
    if (1..=count).contains(&number) {
        Some(number - 1)
    } else {
        None
    }
}

// The number of the record at this place.
pub(crate) fn number_of(at: usize) -> usize
    requires { at + 1 < 2 ^ 64 }
    ensures { result ≡ at + 1 }
{
    at + 1
}

// The record of this number among these, counted from 1, if there is one.
pub fn record_of<T: Copy>(records: &[T], number: usize) -> Option<T>
    ensures { result ≡ numbered records.now number }
{
    if (1..=records.len()).contains(&number) {
        records.get(number - 1).copied()
    } else {
        None
    }
}
