ghost use Rattle.std.specs.Prelude.{◌≡◌, ◌+◌, ◌<◌, ◌≤◌, [], ◌∷◌, ◌++◌, length, Some, None, All};
ghost use Rattle.std.specs.List.{AllZip};
ghost use Rattle.records.specs.Registers.{numbered, replaced};
ghost use Rattle.tables.specs.Tables.{entered};

use crate::table::Table;
use records::numbering::record_of;

fn change_all<T: Copy, F: Fn(T) -> T>(records: &mut [T], rule: F)
    requires { All (F.pre rule) records.old }
    ensures { AllZip (F.post rule) records.old records.new }
{
    for record in records.iter_mut() {
        *record = rule(*record);
    }
}

impl<T: Copy, const N: usize> Table<T, N> {
    // No record yet; the places hold what is vacant. Not inlined, since the compiler would take a large table apart and copy it record
    // by record.
    #[inline(never)]
    pub fn new(vacant: T) -> Table<T, N>
        ensures { entered result ≡ [] }
    {
        Table {
            places: [vacant; N],
            count: 0,
        }
    }

    // How many records there are.
    pub fn len(&self) -> usize
        ensures { result ≡ length (entered self.now) }
    {
        self.count
    }

    // The records, in the order of their numbers.
    pub fn listed(&self) -> &[T]
        ensures { result.now ≡ entered self.now }
    {
        let places = &self.places[..];
        &places[0..self.count]
    }

    // The record of this number, if there is one.
    pub fn get(&self, number: usize) -> Option<T>
        ensures { result ≡ numbered (entered self.now) number }
    {
        record_of(self.listed(), number)
    }

    // One record more, and its number; where there are N, nothing changes.
    pub fn enter(&mut self, new: T) -> Option<usize>
        ensures more { length (entered self.old) < N → (result ≡ Some (length (entered self.old) + 1)) × (entered self.new ≡ entered self.old ++ new ∷ []) }
        ensures full { N ≤ length (entered self.old) → (result ≡ None) × (self.new ≡ self.old) }
    {
        if self.count >= N {
            return None;
        }
        self.places[self.count] = new;
        self.count += 1;
        Some(self.count)
    }

    // Puts a record in the place of the one that has this number, and answers that one; at an unknown number nothing changes.
    pub fn replace(&mut self, number: usize, new: T) -> Option<T>
        ensures old { result ≡ numbered (entered self.old) number }
        ensures entered { entered self.new ≡ replaced (entered self.old) number new }
        ensures unknown { result ≡ None → self.new ≡ self.old }
    {
        let old = self.get(number)?;
        self.places[number - 1] = new;
        Some(old)
    }

    // Changes each record to what the rule makes of it.
    pub fn change_each<F: Fn(T) -> T>(&mut self, rule: F)
        requires { All (F.pre rule) (entered self.old) }
        ensures { AllZip (F.post rule) (entered self.old) (entered self.new) }
    {
        let n = self.count;
        let places = &mut self.places[..];
        change_all(&mut places[0..n], rule);
    }
}
