// Edits of what is pending, as steps of a zone's history make them.
ghost use Rattle.std.specs.Prelude.{◌≡◌, [], true, OnOk, OnErr, IfErr, IsOk, Some, None, if◌then◌else◌};
ghost use Rattle.zone_model.specs.Edits as edits;
ghost use Rattle.zone_model.specs.Commits.{kept_or};
ghost use Rattle.zone_reads.specs.Session.{with_pending};
ghost use Rattle.zone_sessions.specs.Nodes.{with_edit};
ghost use Rattle.zone_versions.specs.Puts.{with_soa};
ghost use Rattle.dns_rdata.specs.DataFields.{soa_fields};
ghost use Rattle.zone_handles.specs.ZoneEdits.{edited, edited_at, edited_node, reached, can_change, can_change_at, is_cut};
ghost use Rattle.zone_handles.specs.declared.zone_edits.NodeEdit.{NodeEdit};

use dns_name::{OwnedLabel, StoredName};
use dns_numbers::{Rtype, Ttl};
use dns_rdata::{Soa, StoredRecord};
use std::alloc::Global;
use zone_sessions::{CommitError, EditError, NodeError, WriteNode, WriteZone};
use zone_values::{SharedRr, SharedRrset, ZoneCut};

/// An edit of what is pending. One that is refused for another cause than want of memory leaves it.
#[derive(Drop)]
pub enum ZoneEdit {
    /// Adds a record.
    Add(StoredRecord),
    /// Deletes a record.
    Delete(StoredRecord),
    /// Makes the apex SOA RRset one record.
    PutSoa(Ttl, Soa<StoredName>),
    /// Removes every RRset.
    ClearAll,
    /// Goes from the apex down, a label each time, and edits the node there. Where no name stands there nothing happens.
    Node(Vec<OwnedLabel>, NodeEdit),
}

/// An edit of a whole node.
#[derive(Drop)]
pub enum NodeEdit {
    /// Puts an RRset in place of the one of its type; an empty one removes that.
    PutSet(SharedRrset),
    /// Removes the RRset of a type.
    RemoveSet(Rtype),
    /// Makes the node a plain one.
    MakeRegular,
    /// Makes the node an alias. With a record of another type than CNAME nothing happens.
    MakeCname(SharedRr),
    /// Makes the node a zone cut. With RRsets of other types than NS and DS nothing happens.
    MakeZoneCut(ZoneCut),
    /// Removes every RRset of the node and of those below it.
    RemoveAll,
}

/// Makes an edit, by the session's own calls and those of its nodes.
pub(crate) fn make_edit(
    alloc: Global,
    session: &mut WriteZone<'_>,
    edit: &ZoneEdit,
) -> Result<(), CommitError>
    ensures ok { OnOk result (session.new ≡ with_pending session.old (kept_or session.old.pending (edited edit.now session.old.pending))) }
    ensures err { OnErr result (session.new ≡ session.old) }
    ensures memory { IfErr result (λ e. e ≡ CommitError.Memory) }
    ensures cause { OnErr result (can_change edit.now session.old.pending ≡ true) }
{
    match edit {
        ZoneEdit::Add(added) => add(session, added),
        ZoneEdit::Delete(deleted) => delete(session, deleted),
        ZoneEdit::PutSoa(ttl, soa) => put_soa(alloc, session, *ttl, soa),
        ZoneEdit::ClearAll => clear_all(session),
        ZoneEdit::Node(labels, edit) => edit_below(session, labels.as_slice(), edit),
    }
}

/// Adds a record, unless the version refuses it.
#[tactic(auto, using(crate::proofs::EditSteps::refused_stays))]
fn add(session: &mut WriteZone<'_>, added: &StoredRecord) -> Result<(), CommitError>
    ensures ok { OnOk result (session.new ≡ with_pending session.old (kept_or session.old.pending (edits.add session.old.pending added.now))) }
    ensures err { OnErr result (session.new ≡ session.old) }
    ensures memory { IfErr result (λ e. e ≡ CommitError.Memory) }
    ensures cause { OnErr result (IsOk (edits.add session.old.pending added.now)) }
{
    if session.refuses(added) {
        return Ok(());
    }
    match session.add_record(added.clone()?) {
        Err(EditError::Memory) => Err(CommitError::Memory),
        _ => Ok(()),
    }
}

/// Deletes a record, unless the version refuses that.
fn delete(session: &mut WriteZone<'_>, deleted: &StoredRecord) -> Result<(), CommitError>
    ensures ok { OnOk result (session.new ≡ with_pending session.old (kept_or session.old.pending (edits.delete session.old.pending deleted.now))) }
    ensures err { OnErr result (session.new ≡ session.old) }
    ensures memory { IfErr result (λ e. e ≡ CommitError.Memory) }
    ensures cause { OnErr result (IsOk (edits.delete session.old.pending deleted.now)) }
{
    match session.delete_record(deleted) {
        Err(EditError::Memory) => Err(CommitError::Memory),
        _ => Ok(()),
    }
}

/// Makes the apex SOA RRset one record.
fn put_soa(
    alloc: Global,
    session: &mut WriteZone<'_>,
    ttl: Ttl,
    soa: &Soa<StoredName>,
) -> Result<(), CommitError>
    ensures ok { OnOk result (session.new ≡ with_pending session.old (with_soa session.old.pending ttl (soa_fields (λ n. n) soa.now))) }
    ensures err { OnErr result (session.new ≡ session.old) }
    ensures memory { IfErr result (λ e. e ≡ CommitError.Memory) }
{
    session.set_soa(ttl, soa.flatten(alloc)?)?;
    Ok(())
}

/// Removes every RRset.
fn clear_all(session: &mut WriteZone<'_>) -> Result<(), CommitError>
    ensures ok { OnOk result (session.new ≡ with_pending session.old (edits.with_sets session.old.pending [])) }
    ensures err { OnErr result (session.new ≡ session.old) }
    ensures memory { IfErr result (λ e. e ≡ CommitError.Memory) }
{
    session.clear_all()?;
    Ok(())
}

/// Edits the node that labels lead to.
fn edit_below(
    session: &mut WriteZone<'_>,
    labels: &[OwnedLabel],
    edit: &NodeEdit,
) -> Result<(), CommitError>
    ensures ok { OnOk result (session.new ≡ with_pending session.old (kept_or session.old.pending (edited_at (reached session.old.pending.apex labels.now) edit.now session.old.pending))) }
    ensures err { OnErr result (session.new ≡ session.old) }
    ensures memory { IfErr result (λ e. e ≡ CommitError.Memory) }
    ensures cause { OnErr result (can_change_at (reached session.old.pending.apex labels.now) edit.now session.old.pending ≡ true) }
{
    let mut told = Ok(());
    edit_and_lend(session, labels, edit, &mut told);
    told
}

/// Edits the node that labels lead to, puts the answer into `told` and lends the session back.
fn edit_and_lend<'s, 'z>(
    session: &'s mut WriteZone<'z>,
    labels: &[OwnedLabel],
    edit: &NodeEdit,
    told: &mut Result<(), CommitError>,
) -> &'s mut WriteZone<'z>
    ensures same_borrow { result.ghost_name ≡ session.entry.ghost_name }
    ensures ok { OnOk told.new (result.now ≡ with_pending session.old (kept_or session.old.pending (edited_at (reached session.old.pending.apex labels.now) edit.now session.old.pending))) }
    ensures err { OnErr told.new (result.now ≡ session.old) }
    ensures memory { IfErr told.new (λ e. e ≡ CommitError.Memory) }
    ensures cause { OnErr told.new (can_change_at (reached session.old.pending.apex labels.now) edit.now session.old.pending ≡ true) }
{
    let mut node = session.open(false);
    *told = edit_reached(&mut node, labels, edit);
    node.into_session()
}

/// Edits the node that labels lead to from this one.
fn edit_reached(
    node: &mut WriteNode<'_, '_>,
    labels: &[OwnedLabel],
    edit: &NodeEdit,
) -> Result<(), CommitError>
    ensures ok { OnOk result (node.new.session ≡ with_pending node.old.session (kept_or node.old.session.pending (edited_at (reached node.old.name labels.now) edit.now node.old.session.pending))) }
    ensures err { OnErr result (node.new.session ≡ node.old.session) }
    ensures same_borrow { node.new.lender ≡ node.old.lender }
    ensures memory { IfErr result (λ e. e ≡ CommitError.Memory) }
    ensures cause { OnErr result (can_change_at (reached node.old.name labels.now) edit.now node.old.session.pending ≡ true) }
{
    if !go_down(node, labels) {
        return Ok(());
    }
    edit_node(node, edit)
}

/// Goes to the node that labels lead to, each below the last. Where a label is the root's or a name gets too long it stops on the way.
fn go_down(node: &mut WriteNode<'_, '_>, labels: &[OwnedLabel]) -> bool
    ensures reached { reached node.old.name labels.now ≡ (if result then Some node.new.name else None) }
    ensures same { node.new ≡ record node.old { name = node.new.name } }
{
    for label in labels {
        if label.is_root() {
            return false;
        }
        if let Err(_) = node.update_child(&label.as_label()) {
            return false;
        }
    }
    true
}

/// Edits a node, unless the edit is refused.
#[tactic(auto, using(crate::proofs::Told::on_err_always))]
fn edit_node(node: &mut WriteNode<'_, '_>, edit: &NodeEdit) -> Result<(), CommitError>
    ensures ok { OnOk result (node.new ≡ with_edit node.old (kept_or node.old.session.pending (edited_node edit.now node.old.name node.old.session.pending))) }
    ensures err { OnErr result (node.new ≡ node.old) }
    ensures memory { IfErr result (λ e. e ≡ CommitError.Memory) }
    ensures cause { OnErr result (IsOk (edited_node edit.now node.old.name node.old.session.pending)) }
{
    match edit {
        NodeEdit::PutSet(set) => put_set(node, set),
        NodeEdit::RemoveSet(rtype) => Ok(node.remove_rrset(*rtype)?),
        NodeEdit::MakeRegular => Ok(node.make_regular()?),
        NodeEdit::MakeCname(alias) => make_cname(node, alias),
        NodeEdit::MakeZoneCut(cut) => make_zone_cut(node, cut),
        NodeEdit::RemoveAll => Ok(node.remove_all()?),
    }
}

/// Puts an RRset, unless the version refuses it.
#[tactic(auto, using(crate::proofs::EditSteps::refused_stays_at))]
fn put_set(node: &mut WriteNode<'_, '_>, set: &SharedRrset) -> Result<(), CommitError>
    ensures ok { OnOk result (node.new ≡ with_edit node.old (kept_or node.old.session.pending (edits.replace_set node.old.session.pending node.old.name set.now.rtype set.now.contents))) }
    ensures err { OnErr result (node.new ≡ node.old) }
    ensures memory { IfErr result (λ e. e ≡ CommitError.Memory) }
    ensures cause { OnErr result (IsOk (edits.replace_set node.old.session.pending node.old.name set.now.rtype set.now.contents)) }
{
    if node.refuses_rrset(set.as_rrset()) {
        return Ok(());
    }
    match node.update_rrset(set.clone()?) {
        Err(EditError::Memory) => Err(CommitError::Memory),
        _ => Ok(()),
    }
}

/// Makes the node an alias by a CNAME record, unless it is the apex.
fn make_cname(node: &mut WriteNode<'_, '_>, alias: &SharedRr) -> Result<(), CommitError>
    ensures ok { OnOk result (node.new ≡ with_edit node.old (kept_or node.old.session.pending (edited_node (NodeEdit.MakeCname alias.now) node.old.name node.old.session.pending))) }
    ensures err { OnErr result (node.new ≡ node.old) }
    ensures memory { IfErr result (λ e. e ≡ CommitError.Memory) }
{
    if alias.rtype() != Rtype::CNAME {
        return Ok(());
    }
    match node.make_cname(alias.clone()?) {
        Ok(()) => Ok(()),
        Err(NodeError::NotAllowed) => Ok(()),
        Err(NodeError::Memory) => Err(CommitError::Memory),
    }
}

/// Makes the node a zone cut by NS and DS RRsets, unless it is the apex.
fn make_zone_cut(node: &mut WriteNode<'_, '_>, cut: &ZoneCut) -> Result<(), CommitError>
    ensures ok { OnOk result (node.new ≡ with_edit node.old (kept_or node.old.session.pending (edited_node (NodeEdit.MakeZoneCut cut.now) node.old.name node.old.session.pending))) }
    ensures err { OnErr result (node.new ≡ node.old) }
    ensures memory { IfErr result (λ e. e ≡ CommitError.Memory) }
{
    if !is_cut(cut) {
        return Ok(());
    }
    match node.make_zone_cut(cut.clone()?) {
        Ok(()) => Ok(()),
        Err(NodeError::NotAllowed) => Ok(()),
        Err(NodeError::Memory) => Err(CommitError::Memory),
    }
}

/// Whether the RRsets of a cut are of types NS and DS.
fn is_cut(cut: &ZoneCut) -> bool
    ensures { result ≡ is_cut cut.now }
{
    let signed = match &cut.ds {
        Some(set) => set.as_rrset().rtype() == Rtype::DS,
        None => true,
    };
    cut.ns.as_rrset().rtype() == Rtype::NS && signed
}
