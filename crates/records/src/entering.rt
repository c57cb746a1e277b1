ghost use Rattle.std.specs.Prelude.{◌≡◌, ℕ, ◌+◌, ◌<◌, ◌≤◌, [], ◌∷◌, ◌++◌, length, None, MatchOption, slice_index_or, slice_set};
ghost use Rattle.records.specs.Registers.{listed, unused, SameMemory, numbered, replaced, Entered};

use crate::numbering::{number_of, place_of, record_of};
use crate::register::Register;
use std::mem;

// The first place behind the records, if there is one.
fn free_place(count: usize, places: usize) -> Option<usize>
    ensures { MatchOption result (places ≤ count) (λ at. (at ≡ count) × (at < places)) }
{
    (count < places).then_some(count)
}

fn write_at<T: Copy>(places: &mut [T], at: usize, new: T)
    requires { at < length places.old }
    ensures { places.new ≡ slice_set places.old at new }
{
    places[at] = new;
}

fn replace_at<T: Copy>(places: &mut [T], at: usize, new: T) -> T
    requires { at < length places.old }
    ensures old { result ≡ slice_index_or places.old at result }
    ensures after { places.new ≡ slice_set places.old at new }
{
    mem::replace(&mut places[at], new)
}

impl<'a, T: Copy> Register<'a, T> {
    // An empty register over these places, whatever they hold. What the register last holds is what its host finds there.
    pub fn begin(places: &'a mut [T]) -> Register<'a, T>
        ensures listed { listed result ≡ [] }
        ensures unused { unused result ≡ places.old }
        ensures memory { result.places.ghost_name ≡ places.entry.ghost_name }
    {
        Register { places, count: 0 }
    }
}

impl<T: Copy> Register<'_, T> {
    // How many records there are.
    pub fn len(&self) -> usize
        ensures { result ≡ length (listed self.now) }
    {
        self.count
    }

    // The record of this number, if there is one.
    pub fn get(&self, number: usize) -> Option<T>
        ensures { result ≡ numbered (listed self.now) number }
    {
        record_of(self.records(), number)
    }

    // The records, in the order of their numbers.
    pub fn records(&self) -> &[T]
        ensures { result.now ≡ listed self.now }
    {
        &self.places[..self.count]
    }

    // Enters a record in the first unused place and answers its number; where no place is unused, nothing changes.
    pub fn enter(&mut self, new: T) -> Option<usize>
        ensures entered { 0 < length (unused self.old) → Entered new self.old self.new result }
        ensures memory { SameMemory self.old self.new }
        ensures full { unused self.old ≡ [] → (result ≡ None) × (self.new ≡ self.old) }
    {
        let at = free_place(self.count, self.places.len())?;
        write_at(self.places, at, new);
        let number = number_of(at);
        self.count = number;
        Some(number)
    }

    // Puts a record in the place of the one that has this number, and answers that one; at an unknown number nothing changes.
    pub fn replace(&mut self, number: usize, new: T) -> Option<T>
        ensures old { result ≡ numbered (listed self.old) number }
        ensures listed { listed self.new ≡ replaced (listed self.old) number new }
        ensures unused { unused self.new ≡ unused self.old }
        ensures memory { SameMemory self.old self.new }
        ensures unknown { result ≡ None → self.new ≡ self.old }
    {
        let at = place_of(number, self.count)?;
        Some(replace_at(self.places, at, new))
    }
}
