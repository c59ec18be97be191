// Edits of the pages of a map, each at a key. Without memory all is as before. Each is told the number of a page, to be looked at first.
ghost use Rattle.std.specs.Prelude.{◌≡◌, None, not, filter, IsOk, IsSome, IfOk, Some, OnOk, OnErr};
ghost use Rattle.std.specs.Box.{boxed_slice_items};
ghost use Rattle.std.specs.BTreeMap.{insert_entry, is_at};
ghost use Rattle.std.specs.Map.{lookup, remove_entry};
ghost use Rattle.paged_map.specs.Octets.{octets_cmp, begins_with};
ghost use Rattle.paged_map.specs.Pages.{IsSound, entries_of, values_in};
ghost use Rattle.std.specs.Borrow.{sem};
ghost use Rattle.paged_map.specs.Lends.{lends_key};

use crate::edits::{put, remove_between, replace, take_out, value_at};
use crate::marks::Mark;
use crate::page::{Entry, Page};
use crate::reads::find;
use crate::spots::{guessed, locate};
use std::alloc::{AllocError, Global};
use std::boxed::BoxedSlice;
use std::sync::Arc;

/// Puts a value at a key, in place of the one there.
pub(crate) fn insert<V: Drop>(
    pages: &mut Vec<Arc<Page<V>>>,
    guess: usize,
    alloc: Global,
    key: BoxedSlice<u8>,
    value: V,
) -> Result<(), AllocError>
    requires { IsSound pages.old.items }
    ensures ok { OnOk result (entries_of pages.new.items ≡ insert_entry octets_cmp (entries_of pages.old.items) (boxed_slice_items key) value) }
    ensures err { OnErr result (values_in pages.new.items ≡ values_in pages.old.items) }
    ensures sound { IsSound pages.new.items }
{
    let (spot, found) = find(pages, guess, key.as_slice());
    let entry = Arc::new(alloc, Entry::new(key, value))?;
    if found {
        return replace(pages, spot, entry);
    }
    put(pages, alloc, spot, entry)
}

/// The value at a key that is there, to write. Its page is copied first if others have it; a value whose entry others have is refused.
pub(crate) fn value_mut<'p, V: Drop>(
    pages: &'p mut Vec<Arc<Page<V>>>,
    guess: usize,
    key: &[u8],
) -> Result<&'p mut V, AllocError>
    requires sound { IsSound pages.old.items }
    requires there { IsSome (lookup (is_at (octets_cmp key.now)) (entries_of pages.old.items)) }
    ensures* writes_back { sem 𝓛 (lends_key V.row pages.entry key.now result) }
    ensures value { IfOk result (λ x. lookup (is_at (octets_cmp key.now)) (entries_of pages.old.items) ≡ Some x.now) }
{
    let (spot, _) = find(pages, guess, key);
    value_at(pages, spot)
}

/// Takes the entry at a key out. Where there is none, that needs no memory.
pub(crate) fn remove<V: Drop>(
    pages: &mut Vec<Arc<Page<V>>>,
    guess: usize,
    key: &[u8],
) -> Result<(), AllocError>
    requires { IsSound pages.old.items }
    ensures ok { OnOk result (entries_of pages.new.items ≡ remove_entry (is_at (octets_cmp key.now)) (entries_of pages.old.items)) }
    ensures err { OnErr result (values_in pages.new.items ≡ values_in pages.old.items) }
    ensures ready { lookup (is_at (octets_cmp key.now)) (entries_of pages.old.items) ≡ None → IsOk result }
    ensures sound { IsSound pages.new.items }
{
    let (spot, found) = find(pages, guess, key);
    if !found {
        return Ok(());
    }
    take_out(pages, spot)
}

/// Takes all entries out whose keys begin with a string.
pub(crate) fn remove_under<V: Drop>(
    pages: &mut Vec<Arc<Page<V>>>,
    guess: usize,
    prefix: &[u8],
) -> Result<(), AllocError>
    requires { IsSound pages.old.items }
    ensures ok { OnOk result (entries_of pages.new.items ≡ filter (λ e. not (begins_with e.0 prefix.now)) (entries_of pages.old.items)) }
    ensures err { OnErr result (values_in pages.new.items ≡ values_in pages.old.items) }
    ensures sound { IsSound pages.new.items }
{
    let guess = guessed(pages, guess, prefix);
    let from = locate(pages, guess, Mark::Before(prefix));
    let to = locate(pages, guess, Mark::Under(prefix));
    remove_between(pages, from, to)
}
