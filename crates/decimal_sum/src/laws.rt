//! Laws of the numbers that texts begin with and of their sums, stated in `specs/Statements.antt`. Calling them does
//! nothing.
ghost use Rattle.decimal_sum.specs.Statements.{NumbersAreRight, OneNumber, CanonicTextsAreTheirNumbers, CanonicTextsStay, SumsAreRight, OneSum, CanonicTextsAreAdded, SumsTurn, SumsInAnyOrder};

/// The number that a text begins with has one canonic text, and that of a canonic text is its own.
pub fn numbers_are_right()
    ensures right { NumbersAreRight }
    ensures one { OneNumber }
    ensures own { CanonicTextsAreTheirNumbers }
    ensures stays { CanonicTextsStay }
{}

/// The sum of two numbers has one canonic text, and numbers may be added in any order.
pub fn sums_are_right()
    ensures right { SumsAreRight }
    ensures one { OneSum }
    ensures canonic { CanonicTextsAreAdded }
    ensures turned { SumsTurn }
    ensures any_order { SumsInAnyOrder }
{}
