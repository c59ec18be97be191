// The nodes that a session edits.
ghost use Rattle.std.specs.Prelude.{◌≡◌, ◌↔◌, ◌≤◌, ◌∷◌, ◌==◌, true, false, length, Ok, Err, IfOk, IfErr, IfSome, IsOk, IsErr, OnOk, OnErr, option_copied, option_map};
ghost use Rattle.dns_name.specs.Names.{name_wire};
ghost use Rattle.dns_numbers.specs.Codes.{type_cname, type_ns, type_ds};
ghost use Rattle.zone_model.specs.Version.{set_at, below_apex};
ghost use Rattle.zone_model.specs.Edits as edits;
ghost use Rattle.zone_model.specs.Edits.{replace_set, make_plain};
ghost use Rattle.zone_values.specs.TypedSets.{TypedSet};
ghost use Rattle.zone_values.specs.TypedEntries.{typed};
ghost use Rattle.zone_versions.specs.Causes.{refusal_of};
ghost use Rattle.zone_sessions.specs.Nodes.{with_edit, opened_node};

use crate::write::WriteZone;
use dns_name::{KeyName, Label, Labelled};
use dns_numbers::Rtype;
use std::alloc::AllocError;
use std::marker::Model;
use zone_reads::child_name;
use zone_values::{NodeError, Rrset, SharedRr, SharedRrset, UpdateError, ZoneCut};
use zone_versions::EditError;

/// A node of a zone in a session: a name at or below the apex. Its edits are the session's, and are pending until the session commits; `into_session`
/// goes on with that session.
#[derive(Drop)]
pub struct WriteNode<'s, 'z> {
    session: &'s mut WriteZone<'z>,
    name: KeyName,
}

impl<'s, 'z> Model for WriteNode<'s, 'z> {
    ghost use Rattle.std.specs.Prelude.{◌≡◌, true};
    ghost use Rattle.dns_name.specs.Names.{under};
    ghost use Rattle.zone_sessions.specs.Nodes.{Node};

    ghost Value = { Node };

    ghost view = { λ n. record { session = n.session.now; name = n.name; lender = n.session.ghost_name } };

    ghost invariant = { λ n. under n.name n.session.now.pending.apex ≡ true };
}

impl<'z> WriteZone<'z> {
    /// Goes on with what is pending, and gives the node of the apex, from which all others are reached. With `create_diff` the next commit is to
    /// tell the difference.
    pub fn open(&mut self, create_diff: bool) -> WriteNode<'_, 'z>
        ensures { result ≡ opened_node self.old create_diff self.entry.ghost_name }
    {
        self.want_difference(create_diff);
        let name = self.shown().apex().to_key_name();
        WriteNode {
            session: self,
            name,
        }
    }
}

impl<'s, 'z> WriteNode<'s, 'z> {
    /// Goes on to the node of a label, which isn't the root's, below this one. Refused is, as `LongName`, a name of more than 255 octets (RFC 1035,
    /// 2.3.4); the node then stays where it is.
    pub fn update_child(&mut self, label: &Label<'_>) -> Result<(), UpdateError>
        requires { (length label.now == 0) ≡ false }
        ensures ok { OnOk result (self.new ≡ record self.old { name = label.now ∷ self.old.name }) }
        ensures short { OnOk result (length (name_wire (label.now ∷ self.old.name)) ≤ 255) }
        ensures long { OnErr result (256 ≤ length (name_wire (label.now ∷ self.old.name))) }
        ensures err { OnErr result (self.new ≡ self.old) }
    {
        match child_name(label, &self.name) {
            Ok(name) => {
                self.name = name;
                Ok(())
            }
            Err(_) => Err(UpdateError::LongName),
        }
    }

    /// Ends the node and lends its session back, in which the node's edits are pending.
    pub fn into_session(self) -> &'s mut WriteZone<'z>
        ensures session { result.now ≡ self.entry.session }
        ensures same_borrow { result.ghost_name ≡ self.entry.lender }
    {
        self.session
    }

    /// The name.
    pub fn name(&self) -> &KeyName
        ensures { result.now ≡ self.now.name }
    {
        &self.name
    }

    /// The pending set of a type.
    pub fn get_rrset(&self, rtype: Rtype) -> Option<&Rrset>
        ensures { option_copied result ≡ option_map (typed rtype) (set_at self.now.session.pending self.now.name rtype) }
    {
        self.session.shown().set_at(&self.name, rtype)
    }

    /// Whether a set is a CNAME set below the apex whose data aren't one value.
    fn is_bad_alias(&self, set: &Rrset) -> bool
        ensures { result ≡ edits.is_bad_alias self.now.session.pending self.now.name set.now.rtype set.now.contents }
    {
        self.session.shown().is_bad_alias(&self.name, set)
    }

    /// Whether `update_rrset` refuses a set. It takes no memory.
    #[tactic(auto, using(crate::proofs::Refused::bad_is_err, crate::proofs::Refused::good_is_ok))]
    pub fn refuses_rrset(&self, set: &Rrset) -> bool
        ensures refused { result ≡ true → IsErr (replace_set self.now.session.pending self.now.name set.now.rtype set.now.contents) }
        ensures accepted { result ≡ false → IsOk (replace_set self.now.session.pending self.now.name set.now.rtype set.now.contents) }
    {
        self.is_bad_alias(set)
    }

    /// Puts a set in place of the one of its type, the first of equal data kept; an empty one removes that. Refused is, as `InvalidData`, a
    /// CNAME set below the apex whose data aren't one value (RFC 2181, 10.1).
    pub fn update_rrset(&mut self, set: SharedRrset) -> Result<(), EditError>
        ensures ok { OnOk result (replace_set self.old.session.pending self.old.name set.rtype set.contents ≡ Ok self.new.session.pending) }
        ensures refused { IfErr result (λ e. IfSome (refusal_of e) (λ why. replace_set self.old.session.pending self.old.name set.rtype set.contents ≡ Err why)) }
        ensures memory { (result ≡ Err EditError.Memory) → IsOk (replace_set self.old.session.pending self.old.name set.rtype set.contents) }
        ensures else_same { self.new ≡ with_edit self.old self.new.session.pending }
        ensures err { OnErr result (self.new ≡ self.old) }
    {
        if self.is_bad_alias(set.as_rrset()) {
            return Err(EditError::InvalidData);
        }
        self.session.replace_set(&self.name, set.as_rrset())?;
        Ok(())
    }

    /// Removes the set of a type.
    pub fn remove_rrset(&mut self, rtype: Rtype) -> Result<(), AllocError>
        ensures ok { OnOk result (self.new ≡ with_edit self.old (edits.remove_set self.old.session.pending self.old.name rtype)) }
        ensures err { OnErr result (self.new ≡ self.old) }
    {
        self.session.remove_set(&self.name, rtype)
    }

    /// Makes the node a plain one: below the apex its NS, DS and CNAME sets go.
    pub fn make_regular(&mut self) -> Result<(), AllocError>
        ensures ok { OnOk result (self.new ≡ with_edit self.old (make_plain self.old.session.pending self.old.name)) }
        ensures err { OnErr result (self.new ≡ self.old) }
    {
        self.session.make_plain(&self.name)
    }

    /// Whether the node isn't the apex.
    fn is_below_apex(&self) -> bool
        ensures { result ≡ below_apex self.now.session.pending self.now.name }
    {
        self.session.shown().is_below_apex(&self.name)
    }

    /// Makes the node an alias (RFC 1034, 3.6.2): the CNAME record's set is this one. Other sets stay. Refused is, as `NotAllowed`, the apex.
    pub fn make_cname(&mut self, alias: SharedRr) -> Result<(), NodeError>
        requires { alias.rtype ≡ type_cname }
        ensures ok { OnOk result (self.new ≡ with_edit self.old (edits.make_alias self.old.session.pending self.old.name alias.ttl alias.fields)) }
        ensures apex { (result ≡ Err NodeError.NotAllowed) ↔ (below_apex self.old.session.pending self.old.name ≡ false) }
        ensures err { OnErr result (self.new ≡ self.old) }
    {
        if !self.is_below_apex() {
            drop(alias);
            return Err(NodeError::NotAllowed);
        }
        let made = self.session.make_alias(&self.name, &alias);
        drop(alias);
        made?;
        Ok(())
    }

    /// Makes the node a zone cut (RFC 1034, 4.2.1): the NS and DS sets are these, without DS records none, and the addresses in the zone are put
    /// as glue. The cut's own name isn't looked at. Other sets stay. Refused is, as `NotAllowed`, the apex.
    pub fn make_zone_cut(&mut self, cut: ZoneCut) -> Result<(), NodeError>
        requires ns { cut.ns.rtype ≡ type_ns }
        requires ds { IfSome cut.ds (λ s. s.rtype ≡ type_ds) }
        ensures ok { OnOk result (self.new ≡ with_edit self.old (edits.make_cut self.old.session.pending self.old.name cut.ns.contents (option_map (λ (s : TypedSet). s.contents) cut.ds) cut.glue.items)) }
        ensures apex { (result ≡ Err NodeError.NotAllowed) ↔ (below_apex self.old.session.pending self.old.name ≡ false) }
        ensures err { OnErr result (self.new ≡ self.old) }
    {
        if !self.is_below_apex() {
            drop(cut);
            return Err(NodeError::NotAllowed);
        }
        self.session.make_cut(&self.name, cut)?;
        Ok(())
    }

    /// Removes all sets of the node and of the nodes below it.
    pub fn remove_all(&mut self) -> Result<(), AllocError>
        ensures ok { OnOk result (self.new ≡ with_edit self.old (edits.clear self.old.session.pending self.old.name)) }
        ensures err { OnErr result (self.new ≡ self.old) }
    {
        self.session.clear(&self.name)
    }
}
