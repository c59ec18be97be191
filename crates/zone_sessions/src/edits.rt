// Edits of a session: each kind has one place.
ghost use Rattle.std.specs.Prelude.{◌≡◌, ◌∷◌, [], true, false, OnOk, OnErr, IfOk, IfSome, option_copied, option_map, unwrap_or, fold as fold_list};
ghost use Rattle.dns_name.specs.Names.{under};
ghost use Rattle.dns_numbers.specs.Codes.{type_cname, type_ns, type_ds};
ghost use Rattle.zone_model.specs.Version.{all_differ, set_at};
ghost use Rattle.zone_model.specs.Edits as edits;
ghost use Rattle.zone_model.specs.Edits.{distinct_set};
ghost use Rattle.zone_reads.specs.Session.{with_pending};
ghost use Rattle.zone_values.specs.TypedSets.{TypedSet};
ghost use Rattle.zone_values.specs.TypedEntries.{typed};

use crate::write::WriteZone;
use dns_name::KeyName;
use dns_numbers::Rtype;
use dns_rdata::StoredRecord;
use std::alloc::AllocError;
use zone_values::{Rrset, SharedRr, SharedRrset, ZoneCut};

// One place for each kind of edit.
impl<'z> WriteZone<'z> {
    /// Puts a set in place of the one of its owner and type; an empty one removes that.
    fn put_set(&mut self, owner: &KeyName, set: Rrset) -> Result<(), AllocError>
        requires zone { under owner.now self.old.pending.apex ≡ true }
        requires differ { all_differ set.contents.items ≡ true }
        requires alias { edits.is_bad_alias self.old.pending owner.now set.rtype set.contents ≡ false }
        ensures ok { OnOk result (self.new ≡ with_pending self.old (edits.put_set self.old.pending owner.now set.rtype set.contents)) }
        ensures err { OnErr result (self.new ≡ self.old) }
    {
        let mut pending = self.take_pending()?;
        let put = pending.put_set(owner, set);
        self.keep(pending);
        put
    }

    /// Removes the set of an owner and type.
    pub(crate) fn remove_set(&mut self, owner: &KeyName, rtype: Rtype) -> Result<(), AllocError>
        ensures ok { OnOk result (self.new ≡ with_pending self.old (edits.remove_set self.old.pending owner.now rtype)) }
        ensures err { OnErr result (self.new ≡ self.old) }
    {
        let mut pending = self.take_pending()?;
        let removed = pending.remove_set(owner, rtype);
        self.keep(pending);
        removed
    }

    /// Removes the NS, DS and CNAME sets of an owner below the apex.
    pub(crate) fn make_plain(&mut self, owner: &KeyName) -> Result<(), AllocError>
        ensures ok { OnOk result (self.new ≡ with_pending self.old (edits.make_plain self.old.pending owner.now)) }
        ensures err { OnErr result (self.new ≡ self.old) }
    {
        let mut pending = self.take_pending()?;
        let removed = pending.make_plain(owner);
        self.keep(pending);
        removed
    }

    /// Removes the sets of a name and of all names below it.
    pub(crate) fn clear(&mut self, name: &KeyName) -> Result<(), AllocError>
        ensures ok { OnOk result (self.new ≡ with_pending self.old (edits.clear self.old.pending name.now)) }
        ensures err { OnErr result (self.new ≡ self.old) }
    {
        let mut pending = self.take_pending()?;
        let cleared = pending.clear(name);
        self.keep(pending);
        cleared
    }

    /// Puts an address in the zone last in its set, unless equal data are there; the lower TTL stays. Other records change nothing.
    fn add_glue(&mut self, added: StoredRecord) -> Result<(), AllocError>
        ensures ok { OnOk result (self.new ≡ with_pending self.old (edits.add_glue self.old.pending added)) }
        ensures err { OnErr result (self.new ≡ self.old) }
    {
        let alloc = self.memory();
        let mut pending = match self.take_pending() {
            Ok(pending) => pending,
            Err(error) => {
                drop(added);
                return Err(error);
            }
        };
        let put = pending.add_glue(alloc, added);
        self.keep(pending);
        put
    }
}

// What nodes ask for.
impl<'z> WriteZone<'z> {
    /// Puts the first of equal data of a set in place of the old one.
    pub(crate) fn replace_set(&mut self, owner: &KeyName, set: &Rrset) -> Result<(), AllocError>
        requires zone { under owner.now self.old.pending.apex ≡ true }
        requires alias { edits.is_bad_alias self.old.pending owner.now set.now.rtype set.now.contents ≡ false }
        ensures ok { OnOk result (self.new ≡ with_pending self.old (edits.put_set self.old.pending owner.now set.now.rtype (distinct_set set.now.contents))) }
        ensures err { OnErr result (self.new ≡ self.old) }
    {
        let first = set.to_distinct(self.memory())?;
        self.put_set(owner, first)
    }

    /// Makes an owner an alias (RFC 1034, 3.6.2).
    pub(crate) fn make_alias(&mut self, owner: &KeyName, alias: &SharedRr) -> Result<(), AllocError>
        requires zone { under owner.now self.old.pending.apex ≡ true }
        requires rtype { alias.now.rtype ≡ type_cname }
        ensures ok { OnOk result (self.new ≡ with_pending self.old (edits.make_alias self.old.pending owner.now alias.now.ttl alias.now.fields)) }
        ensures err { OnErr result (self.new ≡ self.old) }
    {
        let item = alias.data().clone()?;
        let set = Rrset::of_one(self.memory(), alias.ttl(), item)?;
        self.put_set(owner, set)
    }

    /// Makes an owner a zone cut (RFC 1034, 4.2.1). So that all of it is done or nothing, the version is copied first.
    pub(crate) fn make_cut(&mut self, owner: &KeyName, cut: ZoneCut) -> Result<(), AllocError>
        requires zone { under owner.now self.old.pending.apex ≡ true }
        requires ns { cut.ns.rtype ≡ type_ns }
        requires ds { IfSome cut.ds (λ s. s.rtype ≡ type_ds) }
        ensures ok { OnOk result (self.new ≡ with_pending self.old (edits.make_cut self.old.pending owner.now cut.ns.contents (option_map (λ (s : TypedSet). s.contents) cut.ds) cut.glue.items)) }
        ensures err { OnErr result (self.new ≡ self.old) }
    {
        let put = self.cut_whole(owner, &cut);
        drop(cut);
        put
    }

    /// Makes an owner a zone cut, all of it or nothing.
    fn cut_whole(&mut self, owner: &KeyName, cut: &ZoneCut) -> Result<(), AllocError>
        requires zone { under owner.now self.old.pending.apex ≡ true }
        requires ns { cut.now.ns.rtype ≡ type_ns }
        requires ds { IfSome cut.now.ds (λ s. s.rtype ≡ type_ds) }
        ensures ok { OnOk result (self.new ≡ with_pending self.old (edits.make_cut self.old.pending owner.now cut.now.ns.contents (option_map (λ (s : TypedSet). s.contents) cut.now.ds) cut.now.glue.items)) }
        ensures err { OnErr result (self.new ≡ self.old) }
    {
        let before = self.copy()?;
        match self.put_cut(owner, cut) {
            Ok(()) => {
                drop(before);
                Ok(())
            }
            Err(error) => {
                self.keep(before);
                Err(error)
            }
        }
    }

    /// Puts the parts of a zone cut, in turn.
    fn put_cut(&mut self, owner: &KeyName, cut: &ZoneCut) -> Result<(), AllocError>
        requires zone { under owner.now self.old.pending.apex ≡ true }
        requires ns { cut.now.ns.rtype ≡ type_ns }
        requires ds { IfSome cut.now.ds (λ s. s.rtype ≡ type_ds) }
        ensures ok { OnOk result (self.new ≡ with_pending self.old (edits.make_cut self.old.pending owner.now cut.now.ns.contents (option_map (λ (s : TypedSet). s.contents) cut.now.ds) cut.now.glue.items)) }
        ensures else_same { self.new ≡ with_pending self.old self.new.pending }
    {
        self.replace_set(owner, &cut.ns)?;
        self.put_signer(owner, &cut.ds)?;
        self.put_glue(&cut.glue)
    }

    /// Puts the DS set of a zone cut; without one, what was there goes.
    fn put_signer(
        &mut self,
        owner: &KeyName,
        signer: &Option<SharedRrset>,
    ) -> Result<(), AllocError>
        requires zone { under owner.now self.old.pending.apex ≡ true }
        requires ds { IfSome signer.now (λ s. s.rtype ≡ type_ds) }
        ensures ok { OnOk result (self.new ≡ with_pending self.old (edits.put_set self.old.pending owner.now type_ds (distinct_set (unwrap_or (option_map (λ (s : TypedSet). s.contents) signer.now) (record { ttl = 0; items = [] }))))) }
        ensures err { OnErr result (self.new ≡ self.old) }
    {
        match signer {
            Some(set) => self.replace_set(owner, set),
            None => self.remove_set(owner, Rtype::DS),
        }
    }

    /// Puts the addresses of a zone cut's servers, in turn.
    fn put_glue(&mut self, glue: &[StoredRecord]) -> Result<(), AllocError>
        ensures ok { OnOk result (self.new ≡ with_pending self.old (fold_list edits.add_glue self.old.pending glue.now)) }
        ensures else_same { self.new ≡ with_pending self.old self.new.pending }
    {
        for added in glue {
            self.add_glue(added.clone()?)?;
        }
        Ok(())
    }
}
