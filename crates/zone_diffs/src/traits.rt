// What a difference tells.
ghost use Rattle.std.specs.Prelude.{◌≡◌, length, map, IsTrue, option_map, option_copied, slice_get};
ghost use Rattle.std.specs.List.{list_all};
ghost use Rattle.std.specs.List.Sorted.{IsStrictlySortedBy};
ghost use Rattle.std.specs.Map.{keys_of};
ghost use Rattle.std.specs.Map.Iter.{deref_pair};
ghost use Rattle.dns_name.specs.Names.{fold};
ghost use Rattle.zone_model.specs.Version.{key_cmp, Key};
ghost use Rattle.zone_model.specs.Difference.{Difference};
ghost use Rattle.zone_values.specs.TypedSets.{TypedSet};
ghost use Rattle.zone_values.specs.TypedEntries.{item_of, typed_set_in};
ghost use Rattle.zone_diffs.specs.Kept.{holds_data};

use dns_name::Labelled;
use dns_numbers::{Rtype, Serial};
use zone_values::{SetKey, SharedRrset};

/// The difference from one version of a zone to another (RFC 1995, 4). Its items are RRsets that aren't empty, in canonical order of their owners,
/// each owner's types ascending.
pub trait ZoneDiff {
    // what the difference says
    ghost told: { Self → Difference };

    /// The serial that it leads from.
    fn start_serial(&self) -> Serial
        ensures { result ≡ (told self.now).start_serial };

    /// The serial that it leads to.
    fn end_serial(&self) -> Serial
        ensures { result ≡ (told self.now).end_serial };

    /// How many RRsets are added.
    fn added_len(&self) -> usize
        ensures len { result ≡ length (told self.now).added }
        ensures ordered { IsStrictlySortedBy key_cmp (keys_of (told self.now).added) }
        ensures full { IsTrue (list_all holds_data (told self.now).added) };

    /// The added RRset at an index from 0; None from the length on.
    fn added_at(&self, index: usize) -> Option<(&SetKey, &SharedRrset)>
        ensures { option_map deref_pair result ≡ slice_get (map item_of (told self.now).added) index };

    /// How many RRsets are removed.
    fn removed_len(&self) -> usize
        ensures len { result ≡ length (told self.now).removed }
        ensures ordered { IsStrictlySortedBy key_cmp (keys_of (told self.now).removed) }
        ensures full { IsTrue (list_all holds_data (told self.now).removed) };

    /// The removed RRset at an index from 0; None from the length on.
    fn removed_at(&self, index: usize) -> Option<(&SetKey, &SharedRrset)>
        ensures { option_map deref_pair result ≡ slice_get (map item_of (told self.now).removed) index };

    /// What is added of an owner and type, ASCII case aside.
    fn get_added<N: Labelled>(&self, owner: &N, rtype: Rtype) -> Option<&SharedRrset>
        ensures { option_copied result ≡ typed_set_in (told self.now).added (fold (N.labels owner.now), rtype) };

    /// What is removed of an owner and type, ASCII case aside.
    fn get_removed<N: Labelled>(&self, owner: &N, rtype: Rtype) -> Option<&SharedRrset>
        ensures { option_copied result ≡ typed_set_in (told self.now).removed (fold (N.labels owner.now), rtype) };
}

/// One RRset of a difference with its owner and type.
pub trait ZoneDiffItem {
    // its key and its set
    ghost item: { Self → Key × TypedSet };

    /// The owner in lower case, and the type.
    fn key(&self) -> &SetKey
        ensures { result.now ≡ (item self.now).0 };

    /// The records.
    fn value(&self) -> &SharedRrset
        ensures { result.now ≡ (item self.now).1 };
}

impl<'d> ZoneDiffItem for (&'d SetKey, &'d SharedRrset) {
    ghost use Rattle.std.specs.Map.Iter.{deref_pair};

    ghost item = { deref_pair };

    fn key(&self) -> &SetKey {
        self.0
    }

    fn value(&self) -> &SharedRrset {
        self.1
    }
}
