// Laws of a difference under way, each the contract of a function with an empty body.
ghost use Rattle.std.specs.Prelude.{◌≡◌, ℕ, List, false, ◌&&◌, ◌||◌, not};
ghost use Rattle.dns_rdata.specs.Records.{Field};
ghost use Rattle.zone_model.specs.Version.{RecordSet, Key, has_key, set_in};
ghost use Rattle.zone_diffs.specs.Building.{Sides, added_to, removed_from};
ghost use Rattle.zone_diffs.specs.Sided.{in_set, holds, OneTtl, AreOrdered, Apart};

/// A record that comes is on the added side, unless the removed side has it, which then loses it: where the added side's RRset, if there is one, has its TTL.
/// A record that goes, likewise, the sides exchanged (RFC 1995, 4; RFC 2181, 5.2).
pub fn sides_of_one_ttl()
    ensures comes { (b : Sides) (k : Key) (s : RecordSet) → AreOrdered b → OneTtl b.added k s → (ttl : ℕ) (d : List Field)
        → holds (added_to b k s).added k ttl d ≡ (holds b.added k ttl d || (in_set s ttl d && not (holds b.removed k ttl d))) }
    ensures comes_again { (b : Sides) (k : Key) (s : RecordSet) → AreOrdered b → (ttl : ℕ) (d : List Field)
        → holds (added_to b k s).removed k ttl d ≡ (holds b.removed k ttl d && not (in_set s ttl d)) }
    ensures goes { (b : Sides) (k : Key) (s : RecordSet) → AreOrdered b → OneTtl b.removed k s → (ttl : ℕ) (d : List Field)
        → holds (removed_from b k s).removed k ttl d ≡ (holds b.removed k ttl d || (in_set s ttl d && not (holds b.added k ttl d))) }
    ensures goes_again { (b : Sides) (k : Key) (s : RecordSet) → AreOrdered b → (ttl : ℕ) (d : List Field)
        → holds (removed_from b k s).added k ttl d ≡ (holds b.added k ttl d && not (in_set s ttl d)) }
{}

/// So where no record was on both sides, none is afterwards.
pub fn sides_stay_apart()
    ensures added { (b : Sides) (k : Key) (s : RecordSet) → AreOrdered b → OneTtl b.added k s → Apart b → Apart (added_to b k s) }
    ensures removed { (b : Sides) (k : Key) (s : RecordSet) → AreOrdered b → OneTtl b.removed k s → Apart b → Apart (removed_from b k s) }
{}

/// The RRsets at other keys stay as they were.
pub fn other_sets_stay()
    ensures added { (b : Sides) (k q : Key) (s : RecordSet) → AreOrdered b → has_key q k ≡ false
        → (set_in (added_to b k s).removed q ≡ set_in b.removed q) × (set_in (added_to b k s).added q ≡ set_in b.added q) }
    ensures removed { (b : Sides) (k q : Key) (s : RecordSet) → AreOrdered b → has_key q k ≡ false
        → (set_in (removed_from b k s).removed q ≡ set_in b.removed q) × (set_in (removed_from b k s).added q ≡ set_in b.added q) }
{}

/// Sides in order stay in order.
pub fn sides_stay_ordered()
    ensures added { (b : Sides) (k : Key) (s : RecordSet) → AreOrdered b → AreOrdered (added_to b k s) }
    ensures removed { (b : Sides) (k : Key) (s : RecordSet) → AreOrdered b → AreOrdered (removed_from b k s) }
{}
