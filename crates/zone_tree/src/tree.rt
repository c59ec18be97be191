// The zones of a server by class and apex.
ghost use Rattle.std.specs.Prelude.{◌≡◌, ◌↔◌, [], Some, None, Ok, Err, IsSome, IfErr, IfNone, OnOk, OnErr, MatchOption, is_some, option_copied};
ghost use Rattle.std.specs.BTreeMap.{insert_entry, is_at, get};
ghost use Rattle.std.specs.List.Sorted.{IsStrictlySortedBy};
ghost use Rattle.std.specs.Map.{keys_of, remove_entry, values_of};
ghost use Rattle.dns_name.specs.Names.{fold};
ghost use Rattle.zone_model.specs.Zones.{zone_key_cmp, zone_of, find_zone};
ghost use Rattle.zone_tree.specs.Trees.{key_of, IsZoneTree, FindsNearest, SameElsewhere};
ghost use Rattle.zone_tree.specs.Refusals.{handed_back};
ghost use Rattle.zone_tree.specs.declared.errors.InsertZoneError.TheVariants.{ZoneExists};
ghost use Rattle.zone_values.specs.declared.errors.ZoneTreeModificationError.TheVariants.{ZoneDoesNotExist};

use crate::at_apex::AtApex;
use crate::close::Close;
use crate::errors::InsertZoneError;
use crate::iter::ZoneSetIter;
use crate::zone_key::{ZoneKey, zone_key};
use dns_name::{KeyName, Labelled};
use dns_numbers::Class;
use std::alloc::Global;
use std::collections::BTreeMap;
use std::marker::Model;
use std::sync::Wait;
use zone_values::ZoneTreeModificationError;

/// The zones of a server by class and apex, at most one of each.
#[derive(Drop)]
pub struct ZoneTree<Z: AtApex> {
    entries: BTreeMap<ZoneKey, Z>,
}

impl<Z: AtApex> Model for ZoneTree<Z> {
    ghost use Rattle.zone_model.specs.Zones.{Zones};
    ghost use Rattle.zone_tree.specs.Trees.{IsZoneTree};

    ghost Value = { Zones Z };

    ghost view = { λ t. t.entries.entries };

    ghost invariant = { λ t. IsZoneTree Z.class_of Z.apex_of t.entries.entries };
}

impl<Z: AtApex> ZoneTree<Z> {
    /// No zones.
    pub fn new(alloc: Global) -> ZoneTree<Z>
        ensures { result ≡ [] }
    {
        ZoneTree {
            entries: BTreeMap::new(alloc),
        }
    }

    /// The zone of a class and apex, the case of letters aside.
    pub fn get_zone<N: Labelled>(&self, apex_name: &N, class: Class) -> Option<&Z>
        ensures is { option_copied result ≡ zone_of self.now class (N.labels apex_name.now) }
        ensures tree { IsZoneTree Z.class_of Z.apex_of self.now }
    {
        self.entries.get(&zone_key(class, apex_name))
    }

    /// The zone of a class that a name lies in: of those whose apex is the name or above it, the one whose apex is nearest to the name
    /// (RFC 1034, 4.3.2, step 2).
    pub fn find_zone<N: Labelled>(&self, qname: &N, class: Class) -> Option<&Z>
        ensures is { option_copied result ≡ find_zone self.now class (N.labels qname.now) }
        ensures nearest { FindsNearest Z.class_of Z.apex_of self.now class (N.labels qname.now)
            (option_copied result) }
    {
        self.nearest(&qname.to_key_name(), class)
    }

    /// The same of a name in place.
    fn nearest(&self, name: &KeyName, class: Class) -> Option<&Z>
        ensures is { option_copied result ≡ find_zone self.now class name.now }
        ensures tree { IsZoneTree Z.class_of Z.apex_of self.now }
    {
        let mut rest = name.borrowed();
        while let Some((_, parent)) = rest.split_first() {
            let found = self.get_zone(&rest, class);
            if found.is_some() {
                return found;
            }
            rest = parent;
        }
        self.get_zone(&rest, class)
    }

    /// The zones by class ascending, those of a class in canonical order of their apexes (RFC 4034, 6.1).
    pub fn iter_zones(&self) -> ZoneSetIter<'_, Z>
        ensures is { result ≡ values_of self.now }
        ensures tree { IsZoneTree Z.class_of Z.apex_of self.now }
    {
        ZoneSetIter::of(self.entries.values())
    }
}

// Edits.
impl<Z: AtApex> ZoneTree<Z> {
    /// Puts a zone in. Without memory, and where there is a zone of that class and apex, the zone is handed back and the tree stays as it was.
    pub fn insert_zone(&mut self, zone: Z) -> Result<(), InsertZoneError<Z>>
        ensures ok { OnOk result
            (self.new ≡ insert_entry zone_key_cmp self.old (key_of Z.class_of Z.apex_of zone) zone) }
        ensures stands { OnOk result (zone_of self.new (Z.class_of zone) (Z.apex_of zone) ≡ Some zone) }
        ensures others { SameElsewhere (Z.class_of zone) (Z.apex_of zone) self.old self.new }
        ensures exists { IsSome (zone_of self.old (Z.class_of zone) (Z.apex_of zone))
            ↔ (result ≡ Err (ZoneExists zone)) }
        ensures refused { OnErr result (self.new ≡ self.old) }
        ensures returned { IfErr result (λ e. handed_back e ≡ zone) }
    {
        if self.is_taken(&zone) {
            return Err(InsertZoneError::ZoneExists(zone));
        }
        match self.put(zone) {
            Ok(()) => Ok(()),
            Err(zone) => Err(InsertZoneError::Memory(zone)),
        }
    }

    /// Whether there is a zone of a zone's class and apex.
    fn is_taken(&self, zone: &Z) -> bool
        ensures { result ≡ is_some (zone_of self.now (Z.class_of zone.now) (Z.apex_of zone.now)) }
    {
        let key = zone_key(zone.class(), zone.apex_name());
        self.entries.contains_key(&key)
    }

    /// Puts a zone in, where there is none of its class and apex. Without memory it is handed back.
    fn put(&mut self, zone: Z) -> Result<(), Z>
        requires free { zone_of self.old (Z.class_of zone) (Z.apex_of zone) ≡ None }
        ensures ok { OnOk result
            (self.new ≡ insert_entry zone_key_cmp self.old (key_of Z.class_of Z.apex_of zone) zone) }
        ensures stands { OnOk result (zone_of self.new (Z.class_of zone) (Z.apex_of zone) ≡ Some zone) }
        ensures others { SameElsewhere (Z.class_of zone) (Z.apex_of zone) self.old self.new }
        ensures err { OnErr result (self.new ≡ self.old) }
        ensures returned { IfErr result (λ z. z ≡ zone) }
    {
        let key = zone_key(zone.class(), zone.apex_name());
        put_at(&mut self.entries, key, zone)
    }

    /// Takes the zone of a class and apex out, the case of letters aside, and hands it out.
    pub fn remove_zone<N: Labelled>(
        &mut self,
        apex_name: &N,
        class: Class,
    ) -> Result<Z, ZoneTreeModificationError>
        ensures given { MatchOption (zone_of self.old class (N.labels apex_name.now))
            (result ≡ Err ZoneDoesNotExist) (λ zone. result ≡ Ok zone) }
        ensures is { self.new
            ≡ remove_entry (is_at (zone_key_cmp (class, fold (N.labels apex_name.now)))) self.old }
        ensures gone { zone_of self.new class (N.labels apex_name.now) ≡ None }
        ensures others { SameElsewhere class (N.labels apex_name.now) self.old self.new }
        ensures refused { OnErr result (self.new ≡ self.old) }
    {
        match self.take(apex_name, class) {
            Some(zone) => Ok(zone),
            None => Err(ZoneTreeModificationError::ZoneDoesNotExist),
        }
    }

    /// Takes the zone of a class and apex out.
    fn take<N: Labelled>(&mut self, apex_name: &N, class: Class) -> Option<Z>
        ensures value { result ≡ zone_of self.old class (N.labels apex_name.now) }
        ensures is { self.new
            ≡ remove_entry (is_at (zone_key_cmp (class, fold (N.labels apex_name.now)))) self.old }
        ensures gone { zone_of self.new class (N.labels apex_name.now) ≡ None }
        ensures others { SameElsewhere class (N.labels apex_name.now) self.old self.new }
        ensures none { IfNone result (self.new ≡ self.old) }
    {
        let key = zone_key(class, apex_name);
        self.entries.remove(&key)
    }
}

impl<Z: AtApex + Close> ZoneTree<Z> {
    /// Ends each zone in order, and the tree. It takes no memory, and waits as its zones' ends do.
    pub fn close<R: Wait>(self, rt: &R) {
        let ZoneTree { mut entries } = self;
        while let Some((key, zone)) = entries.pop_first() {
            drop(key);
            zone.close(rt);
        }
        entries.destroy_empty();
    }
}

/// Puts a zone at a key that has none. Without memory it is handed back.
fn put_at<Z: AtApex>(entries: &mut BTreeMap<ZoneKey, Z>, key: ZoneKey, zone: Z) -> Result<(), Z>
    requires free { get zone_key_cmp entries.old key ≡ None }
    ensures ok { OnOk result
        (entries.new.entries ≡ insert_entry zone_key_cmp entries.old.entries key zone) }
    ensures err { OnErr result (entries.new.entries ≡ entries.old.entries) }
    ensures returned { IfErr result (λ z. z ≡ zone) }
    ensures ordered { IsStrictlySortedBy zone_key_cmp (keys_of entries.new.entries) }
{
    match entries.insert(key, zone) {
        Ok(None) => Ok(()),
        Ok(Some(_before)) => unreachable!(),
        Err(failed) => {
            let (_, zone) = failed.value;
            Err(zone)
        }
    }
}
