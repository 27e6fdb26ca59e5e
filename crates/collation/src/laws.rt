//! The laws of the order.
ghost use Rattle.std.specs.Prelude.{◌≡◌, ◌≤◌, ℕ, List, true, length};
ghost use Rattle.std.specs.Cmp.{IsTotalOrder};
ghost use Rattle.std.specs.FinMap.{IsAntisymmetric};
ghost use Rattle.std.specs.Ordering.{int_cmp};
ghost use Rattle.canonic_number.specs.Number.{is_canonic, value_of, limit};
ghost use Rattle.collation.specs.Order.{subscript_cmp, ref_cmp};

/// The orders of subscripts and of references are total, and only equal ones tie.
pub fn order_is_total()
    ensures subscripts { IsTotalOrder subscript_cmp }
    ensures references { IsTotalOrder ref_cmp }
    ensures subscript_ties { IsAntisymmetric subscript_cmp }
    ensures reference_ties { IsAntisymmetric ref_cmp }
{}

/// Within the limit canonic numbers compare by their values alone: the bytes, by which the order breaks ties,
/// never decide between them.
pub fn numbers_compare_by_value()
    ensures { (s t : List ℕ) → is_canonic s ≡ true → is_canonic t ≡ true → length s ≤ limit → length t ≤ limit
        → subscript_cmp s t ≡ int_cmp (value_of s) (value_of t) }
{}
