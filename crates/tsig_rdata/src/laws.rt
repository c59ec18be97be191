// Laws of TSIG data, each the contract of a function with an empty body.
ghost use Rattle.std.specs.Prelude.{◌≡◌, ◌↔◌, ◌+◌, ◌++◌, ℕ, List, length, Some, IsTrue};
ghost use Rattle.std.specs.Cmp.{IsTotalOrder};
ghost use Rattle.std.specs.declared.cmp.Ordering.TheVariants.{Equal};
ghost use Rattle.tsig_rdata.specs.CanonicalTsig.{canonical_tsig_cmp};
ghost use Rattle.tsig_rdata.specs.TsigData.{Tsig, IsTsig, tsig_at, tsig_wire};
ghost use Rattle.tsig_rdata.specs.TsigOrder.{same_tsig};

/// Canonical order is total. Data that have a wire form tie in it exactly where they are the same, the case of the algorithm's name
/// too, and are then equal.
pub fn canonical_order_ties_where_same()
    ensures total { IsTotalOrder canonical_tsig_cmp }
    ensures ties { (a b : Tsig) → IsTsig a → IsTsig b → (canonical_tsig_cmp a b ≡ Equal) ↔ (a ≡ b) }
    ensures equal { (a b : Tsig) → IsTsig a → IsTsig b → canonical_tsig_cmp a b ≡ Equal → IsTrue (same_tsig a b) }
{}

/// TSIG data that were composed are read again, wherever they stand.
pub fn tsig_data_written_are_read()
    ensures { (before after : List ℕ) (t : Tsig) → IsTsig t → tsig_at (before ++ (tsig_wire t ++ after)) (length before) ≡ Some (t, length before + length (tsig_wire t)) }
{}
