ghost use Rattle.books.specs.Bounds.{SumsStaySmall};
ghost use Rattle.books.specs.Listed.{ListedValuesAreBounded, DifferencesAreTheContract's, ChangesAreTheContract's};

// While positions and money are what at most 8,192 trades come to, no position passes 81,920,000 lots and no account's
// money 245,760,000,000,000,000, so that 64-bit numbers hold them and there is room for another trade.
pub fn sums_stay_small()
    ensures { SumsStaySmall }
{}

// The laws of the books hold of the value that this crate computes: read by the listed contracts, values and settlement
// prices keep the bounds, and differences and changes of value are those of `difference_in` and `change_in`.
pub fn listed_values_are_lawful()
    ensures bounded { ListedValuesAreBounded }
    ensures differences { DifferencesAreTheContract's }
    ensures changes { ChangesAreTheContract's }
{}
