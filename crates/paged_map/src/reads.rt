// What the pages of a map have at a key, and past one. Each is told the number of a page, to be looked at first.
ghost use Rattle.std.specs.Prelude.{◌≡◌, IsTrue, false, not, option_copied, option_map, find};
ghost use Rattle.std.specs.BTreeMap.{is_at};
ghost use Rattle.std.specs.Map.{lookup};
ghost use Rattle.std.specs.Map.Iter.{deref_pair};
ghost use Rattle.paged_map.specs.Octets.{octets_cmp, passes};
ghost use Rattle.paged_map.specs.Pages.{HasAt, IsSound, IsWithin, LacksAt, entries_of, values_in};

use crate::marks::Mark;
use crate::page::Page;
use crate::spots::{Spot, entry_at, entry_from, guessed, has_key_at, is_found_at, locate};
use std::sync::Arc;

/// The value at a key.
pub(crate) fn get<'m, V>(pages: &'m [Arc<Page<V>>], guess: usize, key: &[u8]) -> Option<&'m V>
    requires { IsSound pages.now }
    ensures { option_copied result ≡ lookup (is_at (octets_cmp key.now)) (entries_of pages.now) }
{
    let (spot, found) = find(pages, guess, key);
    if !found {
        return None;
    }
    match entry_at(pages, spot) {
        Some(entry) => Some(entry.value()),
        None => None,
    }
}

/// Whether others have the entry at a key, or its page.
pub(crate) fn is_shared<V>(pages: &[Arc<Page<V>>], guess: usize, key: &[u8]) -> bool
    requires { IsSound pages.now }
{
    let (spot, _) = find(pages, guess, key);
    match pages.get(spot.page) {
        Some(page) => Arc::strong_count(page) > 1 || page.is_shared_at(spot.at),
        None => false,
    }
}

/// The place of a key, and whether an entry with it stands there.
pub(crate) fn find<V>(pages: &[Arc<Page<V>>], guess: usize, key: &[u8]) -> (Spot, bool)
    requires { IsSound pages.now }
    ensures within { IsWithin (values_in pages.now) result.0 }
    ensures found { IsTrue result.1 → HasAt key.now (values_in pages.now) result.0 }
    ensures absent { result.1 ≡ false → LacksAt key.now (values_in pages.now) result.0 }
{
    let guess = guessed(pages, guess, key);
    if is_found_at(pages, guess, key) {
        return (guess, true);
    }
    let spot = locate(pages, guess, Mark::Before(key));
    (spot, has_key_at(pages, spot, key))
}

/// The first entry that doesn't stand before a mark.
pub(crate) fn first_past<'m, V>(
    pages: &'m [Arc<Page<V>>],
    guess: usize,
    mark: Mark<'_>,
) -> Option<(&'m [u8], &'m V)>
    requires { IsSound pages.now }
    ensures { option_map deref_pair result ≡ find (λ e. not (passes mark.entry e.0)) (entries_of pages.now) }
{
    match entry_from(
        pages,
        locate(pages, guessed(pages, guess, mark.octets()), mark),
    ) {
        Some(entry) => Some((entry.key(), entry.value())),
        None => None,
    }
}
