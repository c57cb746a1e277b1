ghost use Rattle.sheet.specs.Laws.{EntriesAreSaid, NamesAreKnown};

// An entry is read from just the lines that say it: the words of the entry's name, and then fields of its keys, each at most
// once and no needed one missing, whose values are those of the entry.
pub fn entries_are_said()
    ensures { EntriesAreSaid }
{}

// A line that begins with the words of a name is an entry of that name, or has a fault in the words that follow.
pub fn names_are_known()
    ensures { NamesAreKnown }
{}
