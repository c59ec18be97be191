// RRsets that a zone opens with, in a tree.
ghost use Rattle.std.specs.Prelude.{◌≡◌, [], true, ◌∷◌, OnOk, OnErr, IfOk, IfSome, IfNone, IsTrue, map, find, filter, option_copied, option_map};
ghost use Rattle.std.specs.Iterator.{YieldsFirst};
ghost use Rattle.std.specs.List.{list_all};
ghost use Rattle.std.specs.Map.{keys_of};
ghost use Rattle.std.specs.Ordering.{is_le, is_lt};
ghost use Rattle.dns_name.specs.Names.{Name, fold, under, canonical_cmp};
ghost use Rattle.zone_model.specs.Version.{key_cmp, set_in};
ghost use Rattle.zone_model.specs.Edits.{with_sets};
ghost use Rattle.zone_values.specs.SetEdits.{put_with, put_all, opening_set};
ghost use Rattle.zone_values.specs.TypedEntries.{typed};
ghost use Rattle.zone_versions.specs.Held.{told};
ghost use Rattle.zone_versions.specs.Stops.{entry_told};
ghost use Rattle.zone_records.specs.Parsed.{IsTidy};
ghost use Rattle.zone_records.specs.OpeningSets.{is_put_at};

use dns_name::{Labelled, StoredName};
use dns_numbers::{Class, Rtype};
use dns_rdata::{RecordData, StoredRecord};
use std::alloc::{AllocError, Global};
use std::marker::Model;
use zone_values::Rrset;
use zone_versions::{NodeCount, TreeSet, TreeSets, VersionTree};

/// RRsets by owner and type, in a tree that is made for the first record. Where its apex and class are those of the zone, it is what the zone opens with.
#[derive(Drop)]
pub(crate) struct OpeningSets {
    tree: Option<VersionTree>,
}

impl Model for OpeningSets {
    ghost use Rattle.zone_model.specs.Version.{Sets};
    ghost use Rattle.zone_records.specs.OpeningSets.{sets_made};

    ghost Value = { Sets };

    ghost view = { λ s. sets_made s.tree };
}

impl OpeningSets {
    /// No RRsets.
    pub(crate) fn new() -> OpeningSets
        ensures { result ≡ [] }
    {
        OpeningSets { tree: None }
    }

    /// The RRset of an owner and type.
    pub(crate) fn get<N: Labelled>(&self, name: &N, rtype: Rtype) -> Option<&Rrset>
        ensures { option_copied result ≡ option_map (typed rtype) (set_in self.now (fold (N.labels name.now), rtype)) }
    {
        match &self.tree {
            Some(tree) => tree.get(name, rtype),
            None => None,
        }
    }

    /// The first RRset whose owner isn't before a name.
    pub(crate) fn first_from<N: Labelled>(&self, name: &N) -> Option<TreeSet<'_>>
        ensures { result ≡ option_map told (find (λ e. is_le (canonical_cmp (N.labels name.now) e.0.0)) self.now) }
    {
        match &self.tree {
            Some(tree) => tree.first_from(name),
            None => None,
        }
    }

    /// The first RRset after an owner and type.
    pub(crate) fn first_after<N: Labelled>(&self, name: &N, rtype: Rtype) -> Option<TreeSet<'_>>
        ensures { result ≡ option_map told (find (λ e. is_lt (key_cmp (fold (N.labels name.now), rtype) e.0)) self.now) }
    {
        match &self.tree {
            Some(tree) => tree.first_after(name, rtype),
            None => None,
        }
    }

    /// The RRsets in order.
    pub(crate) fn sets(&self) -> OwnerSets<'_>
        ensures { result ≡ map told self.now }
    {
        match &self.tree {
            Some(tree) => OwnerSets {
                rest: Some(tree.sets()),
            },
            None => OwnerSets { rest: None },
        }
    }

    /// Whether all owners are known to be at or below a name, without a look at each: where the tree's apex is spelled so.
    pub(crate) fn is_within(&self, apex: &StoredName) -> bool
        requires { IsTidy self.now }
        ensures { result ≡ true → list_all (λ k. under k.0 apex.now) (keys_of self.now) ≡ true }
    {
        match &self.tree {
            Some(tree) => lies_within(tree, apex),
            None => true,
        }
    }

    /// Puts a record that a zone of this apex and class opens with: data that the RRset has already are not put again, and the lower TTL stays.
    pub(crate) fn put(
        &mut self,
        alloc: Global,
        apex: &StoredName,
        class: Class,
        found: StoredRecord,
    ) -> Result<(), AllocError>
        requires zone { under found.owner apex.now ≡ true }
        requires tidy { IsTidy self.old }
        ensures ok { OnOk result (self.new ≡ put_with (opening_set found.ttl found.fields) (fold found.owner, found.rtype) self.old) }
        ensures err { OnErr result (self.new ≡ self.old) }
    {
        match self.take(alloc, apex, class) {
            Ok(tree) => {
                let mut tree = tree;
                let put = put_in(&mut tree, alloc, apex, class, found);
                self.keep(tree);
                put
            }
            Err(error) => {
                drop(found);
                Err(error)
            }
        }
    }

    /// Takes the tree out to be edited, or makes one of this apex and class.
    fn take(
        &mut self,
        alloc: Global,
        apex: &StoredName,
        class: Class,
    ) -> Result<VersionTree, AllocError>
        ensures ok { IfOk result (λ t. t.sets ≡ self.old) }
        ensures err { OnErr result (self.new ≡ self.old) }
    {
        match self.take_made() {
            Some(tree) => Ok(tree),
            None => VersionTree::new(alloc, apex, class, &mut NodeCount::new()),
        }
    }

    /// Takes the tree out, where it has been made.
    fn take_made(&mut self) -> Option<VersionTree>
        ensures some { IfSome result (λ t. t.sets ≡ self.old) }
        ensures none { IfNone result (self.new ≡ self.old) }
        ensures was { IfNone result (self.old ≡ []) }
    {
        self.tree.take()
    }

    /// Makes a tree the one that is held.
    fn keep(&mut self, tree: VersionTree)
        ensures { self.new ≡ tree.sets }
    {
        self.tree = Some(tree);
    }

    /// The tree of a version of this apex and class that has the RRsets, whose owners are all at or below the apex.
    pub(crate) fn into_tree(
        self,
        alloc: Global,
        apex: &StoredName,
        class: Class,
    ) -> Result<VersionTree, AllocError>
        requires zone { IsTrue (list_all (is_put_at apex.now) (map told self)) }
        requires tidy { IsTidy self }
        ensures { IfOk result (λ t. t ≡ record { apex = apex.now; class = class; sets = self }) }
    {
        match self.tree {
            Some(tree) => {
                if is_of(&tree, apex, class) {
                    return Ok(tree);
                }
                let made = rebuilt(&tree, alloc, apex, class);
                drop(tree);
                made
            }
            None => VersionTree::new(alloc, apex, class, &mut NodeCount::new()),
        }
    }
}

/// Whether a tree has this apex, spelled so, and this class.
fn is_of(tree: &VersionTree, apex: &StoredName, class: Class) -> bool
    ensures { result ≡ true → (tree.now.apex ≡ apex.now) × (tree.now.class ≡ class) }
{
    is_spelled_so(tree.apex(), apex) && tree.class() == class
}

/// Whether a tree's apex is spelled so; all its owners are then at or below that.
fn lies_within(tree: &VersionTree, apex: &StoredName) -> bool
    requires { IsTidy tree.now.sets }
    ensures { result ≡ true → list_all (λ k. under k.0 apex.now) (keys_of tree.now.sets) ≡ true }
{
    // For the proof: the nodes are those of the names that exist in the zone.
    let _ = tree.nodes();
    is_spelled_so(tree.apex(), apex)
}

/// Whether a name is spelled as another.
fn is_spelled_so(name: &StoredName, other: &StoredName) -> bool
    ensures { result ≡ true → name.now ≡ other.now }
{
    name.as_slice() == other.as_slice()
}

/// Whether every name at or below this apex is at or below a tree's: that is spelled so, or the root.
fn has_below(tree: &VersionTree, apex: &StoredName) -> bool
    ensures { result ≡ true → (n : Name) → under n apex.now ≡ true → under n tree.now.apex ≡ true }
{
    tree.apex().compose_len() == 1 || is_spelled_so(tree.apex(), apex)
}

/// Puts a record to a tree, which gets the root as its apex where its own is neither the root nor spelled as the zone's.
fn put_in(
    tree: &mut VersionTree,
    alloc: Global,
    apex: &StoredName,
    class: Class,
    found: StoredRecord,
) -> Result<(), AllocError>
    requires zone { under found.owner apex.now ≡ true }
    requires tidy { IsTidy tree.old.sets }
    ensures ok { OnOk result (tree.new.sets ≡ put_with (opening_set found.ttl found.fields) (fold found.owner, found.rtype) tree.old.sets) }
    ensures err { OnErr result (tree.new.sets ≡ tree.old.sets) }
{
    if let Err(error) = make_room(tree, alloc, apex, class) {
        drop(found);
        return Err(error);
    }
    open_with(tree, alloc, found)
}

/// Makes the root a tree's apex, unless each name at or below this one is at or below the tree's.
fn make_room(
    tree: &mut VersionTree,
    alloc: Global,
    apex: &StoredName,
    class: Class,
) -> Result<(), AllocError>
    requires { IsTidy tree.old.sets }
    ensures sets { tree.new.sets ≡ tree.old.sets }
    ensures zone { OnOk result ((n : Name) → under n apex.now ≡ true → under n tree.new.apex ≡ true) }
{
    if has_below(tree, apex) {
        return Ok(());
    }
    let made = rebuilt(tree, alloc, &StoredName::root(), class)?;
    *tree = made;
    Ok(())
}

/// Puts a record that a zone opens with to a tree.
fn open_with(tree: &mut VersionTree, alloc: Global, found: StoredRecord) -> Result<(), AllocError>
    requires { under found.owner tree.old.apex ≡ true }
    ensures ok { OnOk result (tree.new.sets ≡ put_with (opening_set found.ttl found.fields) (fold found.owner, found.rtype) tree.old.sets) }
    ensures err { OnErr result (tree.new ≡ tree.old) }
{
    let (owner, _, ttl, fields) = found.into_parts();
    let put = tree.open_with(alloc, &owner, ttl, fields, &mut NodeCount::new());
    drop(owner);
    put
}

/// A tree of this apex and class with the RRsets of another, whose owners are all at or below the apex. They are shared.
fn rebuilt(
    tree: &VersionTree,
    alloc: Global,
    apex: &StoredName,
    class: Class,
) -> Result<VersionTree, AllocError>
    requires zone { IsTrue (list_all (is_put_at apex.now) (map told tree.now.sets)) }
    requires tidy { IsTidy tree.now.sets }
    ensures { IfOk result (λ t. t ≡ record { apex = apex.now; class = class; sets = tree.now.sets }) }
{
    let mut made = VersionTree::new(alloc, apex, class, &mut NodeCount::new())?;
    put_sets(
        &mut made,
        alloc,
        OwnerSets {
            rest: Some(tree.sets()),
        },
    )?;
    Ok(made)
}

/// Puts RRsets to a tree, each in place of the one at its key. They are shared. Without memory some of them may have been put.
pub(crate) fn put_sets(
    tree: &mut VersionTree,
    alloc: Global,
    sets: OwnerSets<'_>,
) -> Result<(), AllocError>
    requires { IsTrue (list_all (is_put_at tree.old.apex) sets) }
    ensures { OnOk result (tree.new ≡ with_sets tree.old (put_all tree.old.sets (map entry_told sets.entry))) }
{
    for found in sets {
        put_set(tree, alloc, &found)?;
    }
    Ok(())
}

/// Puts an RRset to a tree, in place of the one at its key.
fn put_set(tree: &mut VersionTree, alloc: Global, found: &TreeSet<'_>) -> Result<(), AllocError>
    requires { IsTrue (is_put_at tree.old.apex found.now) }
    ensures { OnOk result (tree.new ≡ with_sets tree.old (put_all tree.old.sets (map entry_told (found.now ∷ [])))) }
{
    let owner = found.owner().to_name();
    let set = found.shared().clone()?;
    tree.with_set(
        alloc,
        &owner,
        found.rtype(),
        Some(set),
        &mut NodeCount::new(),
    )
}

/// RRsets by owner and type: owners in canonical order, types ascending (RFC 4034, 6.1).
#[derive(Drop)]
pub struct OwnerSets<'s> {
    rest: Option<TreeSets<'s>>,
}

impl<'s> Model for OwnerSets<'s> {
    ghost use Rattle.std.specs.Prelude.{List, [], unwrap_or};
    ghost use Rattle.dns_name.specs.Names.{Name};
    ghost use Rattle.zone_values.specs.TypedSets.{TypedSet};

    ghost Value = { List (Name × TypedSet) };

    ghost view = { λ s. unwrap_or s.rest [] };
}

impl<'s> OwnerSets<'s> {
    /// The next. None where none is left.
    fn next_set(&mut self) -> Option<TreeSet<'s>>
        ensures { YieldsFirst (λ s. s) self.old result self.new }
    {
        match &mut self.rest {
            Some(sets) => sets.next(),
            None => None,
        }
    }
}

impl<'s> Iterator for OwnerSets<'s> {
    type Item = TreeSet<'s>;

    ghost use Rattle.std.specs.Iterator.{YieldsFirst, item_count};

    ghost next_gives = { YieldsFirst (λ s. s) };

    ghost remaining = { item_count (λ s. s) };

    fn next(&mut self) -> Option<TreeSet<'s>> {
        self.next_set()
    }
}
