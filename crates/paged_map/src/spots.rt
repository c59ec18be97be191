// Places within the pages of a map.
ghost use Rattle.std.specs.Prelude.{◌≡◌, ◌-◌, ◌<◌, ◌≤◌, suc, true, false, length, drop, slice_get, option_map, IfSome, IsTrue};
ghost use Rattle.std.specs.Arc.{arc_value};
ghost use Rattle.paged_map.specs.Octets.{reaches, is_key_of};
ghost use Rattle.paged_map.specs.Pages.{AreFit, Ascend, Passed, Ahead, Unreached, IsWithin, after, before, joined, values_in, page_at, first_key, FollowsOne, HasAt};

use crate::marks::{Mark, is_same};
use crate::page::{Entry, Page};
use std::cmp::Ordering;
use std::sync::Arc;

/// A place within pages: so many entries before it in a page.
#[derive(Clone, Copy)]
pub(crate) struct Spot {
    /// The number of the page.
    pub(crate) page: usize,
    /// How many of its entries stand before the place.
    pub(crate) at: usize,
}

/// How many pages begin at keys from where they reach to a mark.
fn count_reaching<V>(pages: &[Arc<Page<V>>], mark: Mark<'_>) -> usize
    requires fit { AreFit (values_in pages.now) }
    requires ascend { Ascend (joined (values_in pages.now)) }
    ensures bound { result ≤ length (values_in pages.now) }
    ensures last { 0 < result → reaches mark.entry (first_key (page_at (values_in pages.now) (result - 1))) ≡ true }
    ensures next { result < length (values_in pages.now) → reaches mark.entry (first_key (page_at (values_in pages.now) result)) ≡ false }
{
    pages.partition_point(
        |page: &Arc<Page<V>>| -> bool
            ensures { result ≡ reaches mark.entry (first_key (arc_value page.now)) }
        { page.reaches(mark) },
    )
}

/// The place of the last entry.
fn last_spot<V>(pages: &[Arc<Page<V>>]) -> Option<Spot>
    ensures page { IfSome result (λ s. suc s.page ≡ length (values_in pages.now)) }
    ensures at { IfSome result (λ s. suc s.at ≡ length (page_at (values_in pages.now) s.page)) }
{
    let page = pages.len().checked_sub(1)?;
    let at = pages[page].len().checked_sub(1)?;
    Some(Spot { page, at })
}

/// Where a mark stands, if it passes the last entry or stands just before that one's key.
/// For keys that come in order, this spares the searches.
fn at_end<V>(pages: &[Arc<Page<V>>], mark: Mark<'_>) -> Option<Spot>
    requires fit { AreFit (values_in pages.now) }
    requires ascend { Ascend (joined (values_in pages.now)) }
    ensures within { IfSome result (λ s. IsWithin (values_in pages.now) s) }
    ensures passed { IfSome result (λ s. Passed mark.entry (before (values_in pages.now) s)) }
    ensures ahead { IfSome result (λ s. Ahead mark.entry (after (values_in pages.now) s)) }
    ensures unreached { IfSome result (λ s. Unreached mark.entry (joined (drop (suc s.page) (values_in pages.now)))) }
{
    let last = last_spot(pages)?;
    let entry = entry_at(pages, last)?;
    match mark.beside(entry.key()) {
        Ordering::Less => None,
        Ordering::Equal => Some(last),
        Ordering::Greater => Some(Spot {
            page: last.page,
            at: last.at + 1,
        }),
    }
}

/// A place in a page, if a mark stands there: just before the key there, or between it and the one before.
fn tested<V>(pages: &[Arc<Page<V>>], spot: Spot, mark: Mark<'_>) -> Option<Spot>
    requires fit { AreFit (values_in pages.now) }
    requires ascend { Ascend (joined (values_in pages.now)) }
    ensures within { IfSome result (λ s. IsWithin (values_in pages.now) s) }
    ensures passed { IfSome result (λ s. Passed mark.entry (before (values_in pages.now) s)) }
    ensures ahead { IfSome result (λ s. Ahead mark.entry (after (values_in pages.now) s)) }
    ensures unreached { IfSome result (λ s. Unreached mark.entry (joined (drop (suc s.page) (values_in pages.now)))) }
{
    let entry = entry_at(pages, spot)?;
    match mark.beside(entry.key()) {
        Ordering::Greater => None,
        Ordering::Equal => Some(spot),
        Ordering::Less => {
            if passes_last_before(pages, spot, mark) {
                Some(spot)
            } else {
                None
            }
        }
    }
}

/// Whether a mark stands after the entry before a place in its page.
fn passes_last_before<V>(pages: &[Arc<Page<V>>], spot: Spot, mark: Mark<'_>) -> bool
    ensures { IsTrue result → FollowsOne mark.entry (page_at (values_in pages.now) spot.page) spot.at }
{
    let Some(at) = spot.at.checked_sub(1) else {
        return false;
    };
    match entry_at(
        pages,
        Spot {
            page: spot.page,
            at,
        },
    ) {
        Some(entry) => mark.passes(entry.key()),
        None => false,
    }
}

/// Where a key may stand in a page, by the leads of the keys there.
pub(crate) fn guessed<V>(pages: &[Arc<Page<V>>], page: usize, key: &[u8]) -> Spot {
    let at = match pages.get(page) {
        Some(page) => page.guess(key),
        None => 0,
    };
    Spot { page, at }
}

/// Where a mark stands among entries in order, by searches: in the last page that reaches to it.
fn search<V>(pages: &[Arc<Page<V>>], mark: Mark<'_>) -> Spot
    requires fit { AreFit (values_in pages.now) }
    requires ascend { Ascend (joined (values_in pages.now)) }
    ensures within { IsWithin (values_in pages.now) result }
    ensures passed { Passed mark.entry (before (values_in pages.now) result) }
    ensures ahead { Ahead mark.entry (after (values_in pages.now) result) }
    ensures unreached { Unreached mark.entry (joined (drop (suc result.page) (values_in pages.now))) }
{
    let count = count_reaching(pages, mark);
    if count == 0 {
        return Spot { page: 0, at: 0 };
    }
    let page = count - 1;
    Spot {
        page,
        at: pages[page].count_before(mark),
    }
}

/// Whether an entry with a key stands at a place, wherever that came from.
pub(crate) fn is_found_at<V>(pages: &[Arc<Page<V>>], spot: Spot, key: &[u8]) -> bool
    requires { Ascend (joined (values_in pages.now)) }
    ensures { IsTrue result → HasAt key.now (values_in pages.now) spot }
{
    has_key_at(pages, spot, key)
}

/// Where a mark stands among entries in order: in the last page that reaches to it. A place is guessed, which is looked at first.
pub(crate) fn locate<V>(pages: &[Arc<Page<V>>], guess: Spot, mark: Mark<'_>) -> Spot
    requires fit { AreFit (values_in pages.now) }
    requires ascend { Ascend (joined (values_in pages.now)) }
    ensures within { IsWithin (values_in pages.now) result }
    ensures passed { Passed mark.entry (before (values_in pages.now) result) }
    ensures ahead { Ahead mark.entry (after (values_in pages.now) result) }
    ensures unreached { Unreached mark.entry (joined (drop (suc result.page) (values_in pages.now))) }
{
    match tested(pages, guess, mark) {
        Some(spot) => spot,
        None => at_end_or_search(pages, mark),
    }
}

/// The same, beside the last entry or by searches.
fn at_end_or_search<V>(pages: &[Arc<Page<V>>], mark: Mark<'_>) -> Spot
    requires fit { AreFit (values_in pages.now) }
    requires ascend { Ascend (joined (values_in pages.now)) }
    ensures within { IsWithin (values_in pages.now) result }
    ensures passed { Passed mark.entry (before (values_in pages.now) result) }
    ensures ahead { Ahead mark.entry (after (values_in pages.now) result) }
    ensures unreached { Unreached mark.entry (joined (drop (suc result.page) (values_in pages.now))) }
{
    match at_end(pages, mark) {
        Some(spot) => spot,
        None => search(pages, mark),
    }
}

/// The entry at a place, if one stands there in its page.
pub(crate) fn entry_at<V>(pages: &[Arc<Page<V>>], spot: Spot) -> Option<&Entry<V>>
    ensures { option_map (λ e. e.now) result ≡ slice_get (page_at (values_in pages.now) spot.page) spot.at }
{
    match pages.get(spot.page) {
        Some(page) => page.get(spot.at),
        None => None,
    }
}

/// The first entry from a place on, which may stand in the next page.
pub(crate) fn entry_from<V>(pages: &[Arc<Page<V>>], spot: Spot) -> Option<&Entry<V>>
    requires fit { AreFit (values_in pages.now) }
    requires within { IsWithin (values_in pages.now) spot }
    ensures { option_map (λ e. e.now) result ≡ slice_get (after (values_in pages.now) spot) 0 }
{
    match entry_at(pages, spot) {
        Some(entry) => Some(entry),
        None if spot.page < pages.len() => entry_at(
            pages,
            Spot {
                page: spot.page + 1,
                at: 0,
            },
        ),
        None => None,
    }
}

/// Whether an entry with this key stands at a place in its page.
pub(crate) fn has_key_at<V>(pages: &[Arc<Page<V>>], spot: Spot, key: &[u8]) -> bool
    ensures { result ≡ is_key_of key.now (slice_get (page_at (values_in pages.now) spot.page) spot.at) }
{
    match entry_at(pages, spot) {
        Some(entry) => is_same(key, entry.key()),
        None => false,
    }
}
