//! What is said of covered nets and of first bad sets.
//!
//! Each law is a function with an empty body, whose contract is the law.

ghost use Rattle.coverage.specs.Bad.{FirstBadIsOne, CoveredHaveNoBad};

/// A net has one first bad set at most, and a covered net has none.
pub fn first_bad_sets_are_one()
    ensures one { FirstBadIsOne }
    ensures covered { CoveredHaveNoBad }
{}
