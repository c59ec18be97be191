// The map.
ghost use Rattle.std.specs.Prelude.{◌≡◌, ◌↔◌, [], IsTrue, IsNone, IsSome, IsOk, IfOk, Some, OnOk, OnErr, option_copied, option_map, find, filter, not};
ghost use Rattle.std.specs.Ordering.{is_le, is_lt};
ghost use Rattle.std.specs.Box.{boxed_slice_items};
ghost use Rattle.std.specs.BTreeMap.{insert_entry, is_at};
ghost use Rattle.std.specs.Map.{lookup, remove_entry};
ghost use Rattle.std.specs.Map.Iter.{deref_pair};
ghost use Rattle.paged_map.specs.Octets.{octets_cmp, begins_with};
ghost use Rattle.paged_map.specs.Pages.{Ascend};

use crate::iter::Entries;
use crate::leads::Leads;
use crate::marks::Mark;
use crate::page::Page;
use crate::reads::{first_past, get, is_shared};
use crate::spots::{Spot, guessed, locate};
use crate::writes::{insert, remove, remove_under, value_mut};
use std::alloc::{AllocError, Global};
use std::boxed::BoxedSlice;
use std::marker::Model;
use std::sync::Arc;

/// An ordered map from strings of octets to values, in pages that its clones share.
#[derive(Drop)]
pub struct PagedMap<V> {
    // Each has entries, and at most as many as fit; the keys ascend over all pages together.
    pages: Vec<Arc<Page<V>>>,
    // By the key that each begins at: where a search looks first.
    leads: Leads,
}

impl<V> Model for PagedMap<V> {
    ghost use Rattle.std.specs.Prelude.{ℕ, List};
    ghost use Rattle.paged_map.specs.Pages.{IsSound, entries_of};

    ghost Value = { List (List ℕ × V) };

    ghost view = { λ m. entries_of m.pages.items };

    ghost invariant = { λ m. IsSound m.pages.items };
}

impl<V> PagedMap<V> {
    /// A map without entries. It takes no memory.
    pub fn new(alloc: Global) -> PagedMap<V>
        ensures { result ≡ [] }
    {
        PagedMap {
            pages: Vec::new(alloc),
            leads: Leads::new(alloc),
        }
    }

    /// Whether it has no entries.
    pub fn is_empty(&self) -> bool
        ensures { IsTrue result ↔ (self.now ≡ []) }
    {
        self.pages.is_empty()
    }

    /// The value at a key.
    pub fn get(&self, key: &[u8]) -> Option<&V>
        ensures { option_copied result ≡ lookup (is_at (octets_cmp key.now)) self.now }
    {
        get(&self.pages, self.guess(key), key)
    }

    /// The first entry at a key or after it.
    pub fn first_from(&self, key: &[u8]) -> Option<(&[u8], &V)>
        ensures { option_map deref_pair result ≡ find (λ e. is_le (octets_cmp key.now e.0)) self.now }
    {
        first_past(&self.pages, self.guess(key), Mark::Before(key))
    }

    /// The first entry after a key.
    pub fn first_after(&self, key: &[u8]) -> Option<(&[u8], &V)>
        ensures { option_map deref_pair result ≡ find (λ e. is_lt (octets_cmp key.now e.0)) self.now }
    {
        first_past(&self.pages, self.guess(key), Mark::After(key))
    }

    /// The entries in order.
    pub fn iter(&self) -> Entries<'_, V>
        ensures entries { result ≡ self.now }
        ensures ascend { Ascend self.now }
    {
        Entries::new(&self.pages, Spot { page: 0, at: 0 })
    }

    /// The entries from a key on, in order.
    pub fn iter_from(&self, key: &[u8]) -> Entries<'_, V>
        ensures { result ≡ filter (λ e. is_le (octets_cmp key.now e.0)) self.now }
    {
        let guess = guessed(&self.pages, self.guess(key), key);
        Entries::new(&self.pages, locate(&self.pages, guess, Mark::Before(key)))
    }

    /// The page in which a key may stand: a guess.
    fn guess(&self, key: &[u8]) -> usize {
        self.leads.count_up_to(key).saturating_sub(1)
    }

    /// How many pages it has. No contract speaks of pages: this and the next are for measurements.
    pub fn page_count(&self) -> usize {
        self.pages.len()
    }

    /// How many of its pages another clone has too.
    pub fn shared_pages(&self) -> usize {
        let mut count: usize = 0;
        for page in self.pages.iter() {
            if Arc::strong_count(page) > 1 {
                count = count.saturating_add(1);
            }
        }
        count
    }
}

// Edits.
impl<V: Drop> PagedMap<V> {
    /// Puts a value at a key, in place of the one there. Without memory all is as before.
    pub fn insert(&mut self, alloc: Global, key: &[u8], value: V) -> Result<(), AllocError>
        ensures ok { OnOk result (self.new ≡ insert_entry octets_cmp self.old key.now value) }
        ensures err { OnErr result (self.new ≡ self.old) }
    {
        let key = BoxedSlice::from_slice(alloc, key)?;
        self.insert_boxed(alloc, key, value)
    }

    /// The same, with a key that the map keeps where there is memory.
    pub fn insert_boxed(
        &mut self,
        alloc: Global,
        key: BoxedSlice<u8>,
        value: V,
    ) -> Result<(), AllocError>
        ensures ok { OnOk result (self.new ≡ insert_entry octets_cmp self.old (boxed_slice_items key) value) }
        ensures err { OnErr result (self.new ≡ self.old) }
    {
        let guess = self.guess(key.as_slice());
        let done = insert(&mut self.pages, guess, alloc, key, value);
        take_up(&mut self.leads, &self.pages);
        done
    }

    /// Takes the entry at a key out. Where there is none, that needs no memory; without memory all is as before.
    pub fn remove(&mut self, key: &[u8]) -> Result<(), AllocError>
        ensures ok { OnOk result (self.new ≡ remove_entry (is_at (octets_cmp key.now)) self.old) }
        ensures err { OnErr result (self.new ≡ self.old) }
        ensures ready { IsNone (lookup (is_at (octets_cmp key.now)) self.old) → IsOk result }
    {
        let guess = self.guess(key);
        let done = remove(&mut self.pages, guess, key);
        take_up(&mut self.leads, &self.pages);
        done
    }

    /// Takes all entries out whose keys begin with a string. Without memory all is as before.
    pub fn remove_under(&mut self, prefix: &[u8]) -> Result<(), AllocError>
        ensures ok { OnOk result (self.new ≡ filter (λ e. not (begins_with e.0 prefix.now)) self.old) }
        ensures err { OnErr result (self.new ≡ self.old) }
    {
        let guess = self.guess(prefix);
        let done = remove_under(&mut self.pages, guess, prefix);
        take_up(&mut self.leads, &self.pages);
        done
    }
}

// Edits of values in place.
impl<V: Drop> PagedMap<V> {
    ghost use Rattle.std.specs.Borrow.{sem};
    ghost use Rattle.paged_map.specs.Lends.{lends_entry};

    /// Whether another clone has the value at a key too, so that it isn't lent. No contract speaks of what is shared.
    pub fn is_shared(&self, key: &[u8]) -> bool {
        is_shared(&self.pages, self.guess(key), key)
    }

    /// The value at a key that is there, to write. Its page is copied first if other clones have it. A value that they have (`is_shared`) is refused as
    /// for want of memory, since no value is copied here: `insert` puts a copy in its place. Without memory all is as before.
    pub fn value_mut(&mut self, key: &[u8]) -> Result<&mut V, AllocError>
        requires { IsSome (lookup (is_at (octets_cmp key.now)) self.old) }
        ensures* writes_back { sem 𝓛 (lends_entry V.row self.entry key.now result) }
        ensures value { IfOk result (λ x. lookup (is_at (octets_cmp key.now)) self.old ≡ Some x.now) }
    {
        let guess = self.guess(key);
        Ok(value_mut(&mut self.pages, guess, key)?)
    }
}

impl<V: Drop> Clone for PagedMap<V> {
    ghost is_clone = { λ s copy. copy ≡ s };

    fn clone(&self) -> Result<PagedMap<V>, AllocError> {
        Ok(PagedMap {
            pages: self.pages.clone()?,
            leads: self.leads.clone()?,
        })
    }
}

/// Has the leads of a map be those of the keys that its pages begin at, if pages came or went.
fn take_up<V>(leads: &mut Leads, pages: &[Arc<Page<V>>]) {
    if leads.len() == pages.len() {
        return;
    }
    if let Some(first) = first_key(pages.first())
        && let Some(last) = first_key(pages.last())
    {
        leads.begin(first, last);
    }
    for page in pages.iter() {
        if let Some(key) = page.first_key() {
            leads.push(key);
        }
    }
}

/// The key that a page begins at, if there is one.
fn first_key<V>(page: Option<&Arc<Page<V>>>) -> Option<&[u8]> {
    match page {
        Some(page) => page.first_key(),
        None => None,
    }
}
