// The pages of a map: entries in order, each shared by the pages that have it.
ghost use Rattle.std.specs.Prelude.{◌≡◌, ◌+◌, ◌-◌, ◌<◌, ◌≤◌, ◌++◌, [], ◌∷◌, false, true, length, take, drop, IfOk, IfErr, OnOk, OnErr, IsTrue, ◌↔◌, insert, remove, slice_set, slice_get, option_map, Some};
ghost use Rattle.std.specs.List.{AllByRecursion};
ghost use Rattle.std.specs.Arc.{arc_value};
ghost use Rattle.std.specs.Box.{boxed_slice_items};
ghost use Rattle.std.specs.Slice.Iter.{iter_rest};
ghost use Rattle.paged_map.specs.Octets.{passes, reaches};
ghost use Rattle.paged_map.specs.Pages.{Ascend, Passed, Ahead, first_key, values_in};
ghost use Rattle.std.specs.Borrow.{sem};
ghost use Rattle.paged_map.specs.Lends.{lends_shared};

use crate::leads::Leads;
use crate::marks::Mark;
use std::alloc::{AllocError, Global};
use std::boxed::BoxedSlice;
use std::marker::Model;
use std::slice::Iter;
use std::sync::Arc;

/// A key and its value.
#[derive(Drop)]
pub(crate) struct Entry<V> {
    key: BoxedSlice<u8>,
    value: V,
}

impl<V> Model for Entry<V> {
    ghost use Rattle.std.specs.Prelude.{ℕ, List};
    ghost use Rattle.std.specs.Box.{boxed_slice_items};

    ghost Value = { List ℕ × V };

    ghost view = { λ e. (boxed_slice_items e.key, e.value) };
}

impl<V> Entry<V> {
    ghost use Rattle.std.specs.Borrow.{sem};
    ghost use Rattle.paged_map.specs.Lends.{lends_value};

    pub(crate) fn new(key: BoxedSlice<u8>, value: V) -> Entry<V>
        ensures { result ≡ (boxed_slice_items key, value) }
    {
        Entry { key, value }
    }

    pub(crate) fn key(&self) -> &[u8]
        ensures { result.now ≡ self.now.0 }
    {
        self.key.as_slice()
    }

    pub(crate) fn value(&self) -> &V
        ensures { result.now ≡ self.now.1 }
    {
        &self.value
    }

    /// The value, to write.
    pub(crate) fn value_mut(&mut self) -> &mut V
        ensures* writes_back { sem 𝓛 (lends_value V.row self.entry result) }
        ensures value { result.now ≡ self.old.1 }
    {
        &mut self.value
    }
}

/// Entries, their keys ascending.
#[derive(Drop)]
pub(crate) struct Page<V> {
    entries: Vec<Arc<Entry<V>>>,
    // Where a search looks first.
    leads: Leads,
}

impl<V> Model for Page<V> {
    ghost use Rattle.std.specs.Prelude.{ℕ, List, map};
    ghost use Rattle.std.specs.Arc.{arc_value};

    ghost Value = { List (List ℕ × V) };

    ghost view = { λ p. map arc_value p.entries.items };
}

impl<V> Page<V> {
    /// Whether it begins at a key from where it reaches to a mark. It has entries.
    pub(crate) fn reaches(&self, mark: Mark<'_>) -> bool
        ensures { result ≡ reaches mark.entry (first_key self.now) }
    {
        match self.entries.first() {
            Some(entry) => mark.reaches(entry.key()),
            None => mark.reaches(b"".as_slice()),
        }
    }

    /// How many of its entries stand before a mark.
    pub(crate) fn count_before(&self, mark: Mark<'_>) -> usize
        requires { Ascend self.now }
        ensures bound { result ≤ length self.now }
        ensures passed { Passed mark.entry (take result self.now) }
        ensures ahead { Ahead mark.entry (drop result self.now) }
    {
        self.entries.partition_point(
            |entry: &Arc<Entry<V>>| -> bool
                ensures { result ≡ passes mark.entry (arc_value entry.now).0 }
            { mark.passes(entry.key()) },
        )
    }

    /// The key that it begins at.
    pub(crate) fn first_key(&self) -> Option<&[u8]> {
        match self.entries.first() {
            Some(entry) => Some(entry.key()),
            None => None,
        }
    }

    /// How many of its entries stand before a key, or about as many: a guess.
    pub(crate) fn guess(&self, key: &[u8]) -> usize {
        self.leads.count_before(key)
    }

    /// Whether others have the entry at a place.
    pub(crate) fn is_shared_at(&self, at: usize) -> bool {
        match self.entries.get(at) {
            Some(entry) => Arc::strong_count(entry) > 1,
            None => false,
        }
    }

    /// How many entries it has.
    pub(crate) fn len(&self) -> usize
        ensures { result ≡ length self.now }
    {
        self.entries.len()
    }

    /// The entry at a place, if there is one.
    pub(crate) fn get(&self, at: usize) -> Option<&Entry<V>>
        ensures { option_map (λ e. e.now) result ≡ slice_get self.now at }
    {
        match self.entries.get(at) {
            Some(entry) => Some(&**entry),
            None => None,
        }
    }

    /// Its entries from a place on.
    pub(crate) fn iter_from(&self, at: usize) -> Iter<'_, Arc<Entry<V>>>
        requires { at ≤ length self.now }
        ensures { values_in (iter_rest result) ≡ drop at self.now }
    {
        self.entries[at..].iter()
    }
}

// New pages, and edits of one.
impl<V: Drop> Page<V> {
    /// A page of these entries.
    fn of(alloc: Global, entries: Vec<Arc<Entry<V>>>) -> Page<V>
        ensures { result ≡ values_in entries.items }
    {
        let mut leads = Leads::new(alloc);
        take_up(&mut leads, &entries);
        Page { entries, leads }
    }

    /// A page of one entry.
    pub(crate) fn of_one(alloc: Global, entry: Arc<Entry<V>>) -> Result<Page<V>, AllocError>
        ensures { IfOk result (λ p. p ≡ arc_value entry ∷ []) }
    {
        let mut entries = Vec::new(alloc);
        entries.push(entry)?;
        Ok(Page::of(alloc, entries))
    }

    /// The entries before one place and those from another on.
    pub(crate) fn without(
        &self,
        alloc: Global,
        from: usize,
        to: usize,
    ) -> Result<Page<V>, AllocError>
        requires from { from ≤ length self.now }
        requires to { to ≤ length self.now }
        ensures { IfOk result (λ p. p ≡ take from self.now ++ drop to self.now) }
    {
        let mut entries = Vec::new(alloc);
        entries.extend_with_clones(&self.entries[..from])?;
        entries.extend_with_clones(&self.entries[to..])?;
        Ok(Page::of(alloc, entries))
    }

    /// Puts an entry at a place, before those from there on. Without memory all is as before.
    pub(crate) fn insert(&mut self, at: usize, entry: Arc<Entry<V>>) -> Result<(), AllocError>
        requires { at ≤ length self.old }
        ensures ok { OnOk result (self.new ≡ insert self.old at (arc_value entry)) }
        ensures err { OnErr result (self.new ≡ self.old) }
    {
        self.entries.insert(at, entry)?;
        take_up_one(&mut self.leads, &self.entries, at);
        Ok(())
    }

    /// Puts an entry in place of the one at a place.
    pub(crate) fn replace(&mut self, at: usize, entry: Arc<Entry<V>>)
        requires { at < length self.old }
        ensures { self.new ≡ slice_set self.old at (arc_value entry) }
    {
        self.entries[at] = entry;
    }

    /// Takes the entry at a place out.
    pub(crate) fn remove(&mut self, at: usize)
        requires { at < length self.old }
        ensures { self.new ≡ remove self.old at }
    {
        drop(self.entries.remove(at));
        self.leads.remove(at);
    }
}

impl<V: Drop> Clone for Page<V> {
    ghost is_clone = { λ s copy. copy ≡ s };

    fn clone(&self) -> Result<Page<V>, AllocError> {
        Ok(Page {
            entries: self.entries.clone()?,
            leads: self.leads.clone()?,
        })
    }
}

/// Has the leads of a page be those of its entries' keys.
fn take_up<V>(leads: &mut Leads, entries: &[Arc<Entry<V>>]) {
    if let Some(first) = entries.first()
        && let Some(last) = entries.last()
    {
        leads.begin(first.key(), last.key());
    }
    for entry in entries.iter() {
        leads.push(entry.key());
    }
}

/// The same after an entry was put at a place. Most often only its own lead is wanted.
fn take_up_one<V>(leads: &mut Leads, entries: &[Arc<Entry<V>>], at: usize) {
    let beside = if at == 0 { 1 } else { 0 };
    if let Some(entry) = entries.get(at)
        && let Some(other) = entries.get(beside)
        && leads.insert(at, entry.key(), other.key())
    {
        return;
    }
    take_up(leads, entries);
}

/// The value of an entry that no other has, to write. One that others have is refused.
fn own_value<V: Drop>(entry: &mut Arc<Entry<V>>) -> Result<&mut V, AllocError>
    ensures* writes_back { sem 𝓛 (lends_shared V.row entry.entry result) }
    ensures value { IfOk result (λ x. x.now ≡ (arc_value entry.old).1) }
{
    match Arc::get_mut(entry) {
        Some(own) => Ok(own.value_mut()),
        None => Err(AllocError),
    }
}

// Values to write.
impl<V: Drop> Page<V> {
    ghost use Rattle.std.specs.Borrow.{sem};
    ghost use Rattle.paged_map.specs.Lends.{lends_at};

    /// The value at a place, to write. One whose entry others have is refused.
    pub(crate) fn value_mut(&mut self, at: usize) -> Result<&mut V, AllocError>
        requires { at < length self.old }
        ensures* writes_back { sem 𝓛 (lends_at V.row self.entry at result) }
        ensures value { IfOk result (λ x. option_map (λ e. e.1) (slice_get self.old at) ≡ Some x.now) }
    {
        own_value(&mut self.entries[at])
    }
}
