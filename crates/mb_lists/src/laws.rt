//! Laws of places and ids.
ghost use Rattle.std.specs.Prelude.{◌≡◌};
ghost use Rattle.mb_lists.specs.Common.{Place};
ghost use Rattle.mb_lists.specs.Places.{InRange, address};

/// Two places in range that have one id are one place.
pub fn places_have_own_ids()
    ensures { (p q : Place) → InRange p → InRange q → address p ≡ address q → p ≡ q }
{}
