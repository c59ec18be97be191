//! What follows for numbers.
ghost use Rattle.std.specs.Prelude.{◌≡◌, ◌≤◌, List, Some};
ghost use mathlib.Core.List.{IsPrefix};
ghost use Rattle.published.specs.Commits.{latest, IsNumbered};

use crate::numbered::Numbered;

/// A history that goes on from a beginning ends with no lesser number. So what a reader holds after it learnt a receipt isn't older than the receipt's
/// entry, and what it holds now isn't older than what it held before.
pub fn beginnings_are_no_later<E: Numbered + Drop>()
    ensures { (xs ys : List E) (a b : E) → IsPrefix xs ys → IsNumbered E.number_of ys
        → latest xs ≡ Some a → latest ys ≡ Some b → E.number_of a ≤ E.number_of b }
{}
