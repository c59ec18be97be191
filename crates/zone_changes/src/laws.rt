// Laws of the keys that cover what two versions differ in, each the contract of a function with an empty body.
ghost use Rattle.std.specs.Prelude.{◌≡◌, ℕ, true, [], List};
ghost use Rattle.std.specs.List.Sorted.{IsStrictlySortedBy};
ghost use Rattle.std.specs.Map.{keys_of};
ghost use Rattle.dns_name.specs.Names.{Name, fold};
ghost use Rattle.zone_model.specs.Version.{Key, Sets, RecordSet, Version, key_cmp};
ghost use Rattle.zone_model.specs.Edits.{put_set, remove_set, clear, close};
ghost use Rattle.zone_model.specs.Difference.{without};
ghost use Rattle.zone_versions.specs.Sound.{IsSound};
ghost use Rattle.zone_changes.specs.Touched.{is_touched, noted, noted_all, keys_below, stray_keys, Covers};
ghost use Rattle.zone_changes.specs.Changes.{lacked_at};

/// Before any edit nothing need be noted, and keys that are noted cover no less.
pub fn covers_more()
    ensures itself { (keys : List Key) (a : Sets) → Covers keys a a }
    ensures noted { (keys : List Key) (k : Key) (a b : Sets) → Covers keys a b → Covers (noted keys k) a b }
    ensures noted_all { (keys more : List Key) (a b : Sets) → Covers keys a b → Covers (noted_all keys more) a b }
    ensures noted_itself { (keys : List Key) (k : Key) → is_touched (noted keys k) k ≡ true }
{}

/// An RRset put or removed at a noted key.
pub fn covers_edits()
    ensures put { (keys : List Key) (a : Sets) (v : Version) (owner : Name) (rtype : ℕ) (s : RecordSet)
        → is_touched keys (fold owner, rtype) ≡ true → Covers keys a v.sets → Covers keys a (put_set v owner rtype s).sets }
    ensures removed { (keys : List Key) (a : Sets) (v : Version) (owner : Name) (rtype : ℕ)
        → is_touched keys (fold owner, rtype) ≡ true → Covers keys a v.sets → Covers keys a (remove_set v owner rtype).sets }
{}

/// Every RRset at and below a name removed, or in the zone, whose keys were noted; and those that a commit leaves out.
pub fn covers_removals()
    ensures below { (keys : List Key) (a : Sets) (v : Version) (n : Name) → Covers keys a v.sets → Covers (noted_all keys (keys_below v n)) a (clear v n).sets }
    ensures zone { (keys : List Key) (a : Sets) (v : Version) → IsSound v → Covers keys a v.sets → Covers (noted_all keys (keys_below v v.apex)) a [] }
    ensures strays { (keys : List Key) (a : Sets) (v : Version) → Covers keys a v.sets → Covers (noted_all keys (stray_keys v)) a (close v).sets }
{}

/// What a sound version has and another one lacks is found at the keys that cover both.
pub fn found_at_covering_keys()
    ensures { (keys : List Key) (v w : Version) → IsSound v → Covers keys v.sets w.sets → lacked_at v.sets w.sets [] keys ≡ without v.sets w.sets }
{}
