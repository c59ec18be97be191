// Iterators over the entries of a map.
ghost use Rattle.std.specs.Prelude.{◌≡◌, [], ◌++◌, length};
ghost use Rattle.std.specs.Iterator.{at_most};
ghost use Rattle.std.specs.Map.Iter.{TakesFirst, deref_pair};
ghost use Rattle.paged_map.specs.Pages.{AreFit, IsWithin, after, values_in};

use crate::page::{Entry, Page};
use crate::spots::Spot;
use std::marker::Model;
use std::slice::Iter;
use std::sync::Arc;

/// The entries of a map, or those from a place on, in order.
#[derive(Drop)]
pub struct Entries<'a, V> {
    // What is left of a page, and the pages after it. Each of these has entries.
    page: Iter<'a, Arc<Entry<V>>>,
    pages: Iter<'a, Arc<Page<V>>>,
}

impl<'a, V> Model for Entries<'a, V> {
    ghost use Rattle.std.specs.Prelude.{ℕ, List, ◌++◌};
    ghost use Rattle.std.specs.Slice.Iter.{iter_rest};
    ghost use Rattle.paged_map.specs.Pages.{AreFit, entries_of, values_in};

    ghost Value = { List (List ℕ × V) };

    ghost view = { λ s. values_in (iter_rest s.page) ++ entries_of (iter_rest s.pages) };

    ghost invariant = { λ s. AreFit (values_in (iter_rest s.pages)) };
}

impl<'a, V> Entries<'a, V> {
    /// The entries of pages from a place on.
    pub(crate) fn new(pages: &'a [Arc<Page<V>>], spot: Spot) -> Entries<'a, V>
        requires fit { AreFit (values_in pages.now) }
        requires within { IsWithin (values_in pages.now) spot }
        ensures { result ≡ after (values_in pages.now) spot }
    {
        if spot.page >= pages.len() {
            return Entries {
                page: [].iter(),
                pages: pages.iter(),
            };
        }
        Entries {
            page: pages[spot.page].iter_from(spot.at),
            pages: pages[spot.page + 1..].iter(),
        }
    }
}

impl<'a, V> Iterator for Entries<'a, V> {
    type Item = (&'a [u8], &'a V);

    ghost next_gives = { TakesFirst deref_pair };

    ghost remaining = { λ s. at_most (length s) };

    fn next(&mut self) -> Option<(&'a [u8], &'a V)> {
        if let Some(entry) = self.page.next() {
            return Some((entry.key(), entry.value()));
        }
        match self.pages.next() {
            Some(page) => {
                self.page = page.iter_from(0);
                match self.page.next() {
                    Some(entry) => Some((entry.key(), entry.value())),
                    None => None,
                }
            }
            None => None,
        }
    }
}
