// Edits of the pages of a map, each at a place. Without memory all is as before.
ghost use Rattle.std.specs.Prelude.{◌≡◌, ◌++◌, ◌<◌, ◌≤◌, [], ◌∷◌, ℕ, suc, length, take, drop, insert, remove, slice_set, slice_get, option_map, Some, IfOk, OnOk, OnErr, vec_len};
ghost use Rattle.std.specs.Arc.{arc_value};
ghost use Rattle.paged_map.specs.Pages.{AreFit, IsFit, IsWithin, after, before, beyond, joined, most, page_at, values_in};
ghost use Rattle.std.specs.Borrow.{sem};
ghost use Rattle.paged_map.specs.Lends.{lends_in, lends_there};

use crate::page::{Entry, Page};
use crate::spots::Spot;
use std::alloc::{AllocError, Global};
use std::sync::Arc;

/// How many entries a page has at most.
const MOST: usize = 256;

/// Puts an entry at a place of a page, which is copied first if others have it.
fn put_in<V: Drop>(
    page: &mut Arc<Page<V>>,
    at: usize,
    entry: Arc<Entry<V>>,
) -> Result<(), AllocError>
    requires { at ≤ length (arc_value page.old) }
    ensures ok { OnOk result (arc_value page.new ≡ insert (arc_value page.old) at (arc_value entry)) }
    ensures err { OnErr result (arc_value page.new ≡ arc_value page.old) }
{
    Arc::make_mut(page)?.insert(at, entry)
}

/// Puts an entry in place of the one at a place of a page, which is copied first if others have it.
fn replace_in<V: Drop>(
    page: &mut Arc<Page<V>>,
    at: usize,
    entry: Arc<Entry<V>>,
) -> Result<(), AllocError>
    requires { at < length (arc_value page.old) }
    ensures ok { OnOk result (arc_value page.new ≡ slice_set (arc_value page.old) at (arc_value entry)) }
    ensures err { OnErr result (arc_value page.new ≡ arc_value page.old) }
{
    Arc::make_mut(page)?.replace(at, entry);
    Ok(())
}

/// Takes the entry at a place out of a page, which is copied first if others have it.
fn take_from<V: Drop>(page: &mut Arc<Page<V>>, at: usize) -> Result<(), AllocError>
    requires { at < length (arc_value page.old) }
    ensures ok { OnOk result (arc_value page.new ≡ remove (arc_value page.old) at) }
    ensures err { OnErr result (arc_value page.new ≡ arc_value page.old) }
{
    Arc::make_mut(page)?.remove(at);
    Ok(())
}

/// The value at a place of a page, to write. The page is copied first if others have it; a value whose entry others have is refused.
fn value_in<V: Drop>(page: &mut Arc<Page<V>>, at: usize) -> Result<&mut V, AllocError>
    requires { at < length (arc_value page.old) }
    ensures* writes_back { sem 𝓛 (lends_in V.row page.entry at result) }
    ensures value { IfOk result (λ x. option_map (λ e. e.1) (slice_get (arc_value page.old) at) ≡ Some x.now) }
{
    Arc::make_mut(page)?.value_mut(at)
}

/// Begins a page with an entry, after all others.
fn begin_page<V: Drop>(
    pages: &mut Vec<Arc<Page<V>>>,
    alloc: Global,
    entry: Arc<Entry<V>>,
) -> Result<(), AllocError>
    ensures ok { OnOk result (values_in pages.new.items ≡ values_in pages.old.items ++ (arc_value entry ∷ []) ∷ []) }
    ensures err { OnErr result (values_in pages.new.items ≡ values_in pages.old.items) }
{
    let page = Arc::new(alloc, Page::of_one(alloc, entry)?)?;
    pages.push(page)?;
    Ok(())
}

/// A page of the entries before one place of a page and those from another on.
fn part<V: Drop>(
    page: &Page<V>,
    alloc: Global,
    from: usize,
    to: usize,
) -> Result<Arc<Page<V>>, AllocError>
    requires from { from ≤ length page.now }
    requires to { to ≤ length page.now }
    ensures { IfOk result (λ p. arc_value p ≡ take from page.now ++ drop to page.now) }
{
    let part = page.without(alloc, from, to)?;
    Ok(Arc::new(alloc, part)?)
}

/// The same, with an entry put at a place.
fn part_with<V: Drop>(
    page: &Page<V>,
    alloc: Global,
    from: usize,
    to: usize,
    at: usize,
    entry: Arc<Entry<V>>,
) -> Result<Arc<Page<V>>, AllocError>
    requires from { from ≤ length page.now }
    requires to { to ≤ length page.now }
    requires at { at ≤ length (take from page.now ++ drop to page.now) }
    ensures { IfOk result (λ p. arc_value p ≡ insert (take from page.now ++ drop to page.now) at (arc_value entry)) }
{
    let mut part = page.without(alloc, from, to)?;
    part.insert(at, entry)?;
    Ok(Arc::new(alloc, part)?)
}

/// Two pages of a page's entries and one more, which is put at a place.
fn halves<V: Drop>(
    page: &Page<V>,
    alloc: Global,
    at: usize,
    entry: Arc<Entry<V>>,
) -> Result<(Arc<Page<V>>, Arc<Page<V>>), AllocError>
    requires at { at ≤ length page.now }
    requires some { 2 ≤ length page.now }
    requires few { length page.now ≤ most }
    ensures all { IfOk result (λ r. arc_value r.0 ++ arc_value r.1 ≡ insert page.now at (arc_value entry)) }
    ensures low { IfOk result (λ r. IsFit (arc_value r.0)) }
    ensures high { IfOk result (λ r. IsFit (arc_value r.1)) }
{
    let half = page.len() / 2;
    if at <= half {
        let high = part(page, alloc, 0, half)?;
        return Ok((part_with(page, alloc, half, page.len(), at, entry)?, high));
    }
    let low = part(page, alloc, half, page.len())?;
    Ok((low, part_with(page, alloc, 0, half, at - half, entry)?))
}

/// Puts two pages in place of one.
fn put_two<V: Drop>(
    pages: &mut Vec<Arc<Page<V>>>,
    page: usize,
    low: Arc<Page<V>>,
    high: Arc<Page<V>>,
) -> Result<(), AllocError>
    requires { page < vec_len pages.old }
    ensures ok { OnOk result (values_in pages.new.items ≡ take page (values_in pages.old.items) ++ arc_value low ∷ arc_value high ∷ drop (suc page) (values_in pages.old.items)) }
    ensures err { OnErr result (values_in pages.new.items ≡ values_in pages.old.items) }
{
    pages.insert(page + 1, high)?;
    pages[page] = low;
    Ok(())
}

/// Puts an entry at a place in a page that isn't full.
fn put_within<V: Drop>(
    pages: &mut Vec<Arc<Page<V>>>,
    spot: Spot,
    entry: Arc<Entry<V>>,
) -> Result<(), AllocError>
    requires fit { AreFit (values_in pages.old.items) }
    requires page { spot.page < vec_len pages.old }
    requires at { spot.at ≤ length (page_at (values_in pages.old.items) spot.page) }
    requires room { length (page_at (values_in pages.old.items) spot.page) < most }
    ensures ok { OnOk result (joined (values_in pages.new.items) ≡ before (values_in pages.old.items) spot ++ arc_value entry ∷ after (values_in pages.old.items) spot) }
    ensures err { OnErr result (values_in pages.new.items ≡ values_in pages.old.items) }
    ensures fit { AreFit (values_in pages.new.items) }
{
    put_in(&mut pages[spot.page], spot.at, entry)
}

/// Puts an entry at a place in a page that has others, and cuts it in two.
fn split<V: Drop>(
    pages: &mut Vec<Arc<Page<V>>>,
    alloc: Global,
    spot: Spot,
    entry: Arc<Entry<V>>,
) -> Result<(), AllocError>
    requires fit { AreFit (values_in pages.old.items) }
    requires page { spot.page < vec_len pages.old }
    requires at { spot.at ≤ length (page_at (values_in pages.old.items) spot.page) }
    requires some { 2 ≤ length (page_at (values_in pages.old.items) spot.page) }
    ensures ok { OnOk result (joined (values_in pages.new.items) ≡ before (values_in pages.old.items) spot ++ arc_value entry ∷ after (values_in pages.old.items) spot) }
    ensures err { OnErr result (values_in pages.new.items ≡ values_in pages.old.items) }
    ensures fit { AreFit (values_in pages.new.items) }
{
    let (low, high) = halves(&pages[spot.page], alloc, spot.at, entry)?;
    put_two(pages, spot.page, low, high)
}

/// How many entries a page has, or 0 where it is past the last.
fn page_len<V>(pages: &[Arc<Page<V>>], page: usize) -> usize
    ensures { result ≡ length (page_at (values_in pages.now) page) }
{
    match pages.get(page) {
        Some(page) => page.len(),
        None => 0,
    }
}

/// Puts an entry at a place among pages: in its page, unless that is full. A full page is cut in two, but after all others a page is begun, so that
/// pages stay full where entries come in order.
pub(crate) fn put<V: Drop>(
    pages: &mut Vec<Arc<Page<V>>>,
    alloc: Global,
    spot: Spot,
    entry: Arc<Entry<V>>,
) -> Result<(), AllocError>
    requires fit { AreFit (values_in pages.old.items) }
    requires within { IsWithin (values_in pages.old.items) spot }
    ensures ok { OnOk result (joined (values_in pages.new.items) ≡ before (values_in pages.old.items) spot ++ arc_value entry ∷ after (values_in pages.old.items) spot) }
    ensures err { OnErr result (values_in pages.new.items ≡ values_in pages.old.items) }
    ensures fit { AreFit (values_in pages.new.items) }
{
    let count = pages.len();
    let length = page_len(pages, spot.page);
    if spot.page >= count || (spot.page + 1 == count && spot.at == length && length >= MOST) {
        return begin_page(pages, alloc, entry);
    }
    if length < MOST {
        return put_within(pages, spot, entry);
    }
    split(pages, alloc, spot, entry)
}

/// Puts an entry in place of the one at a place among pages.
pub(crate) fn replace<V: Drop>(
    pages: &mut Vec<Arc<Page<V>>>,
    spot: Spot,
    entry: Arc<Entry<V>>,
) -> Result<(), AllocError>
    requires fit { AreFit (values_in pages.old.items) }
    requires page { spot.page < vec_len pages.old }
    requires at { spot.at < length (page_at (values_in pages.old.items) spot.page) }
    ensures ok { OnOk result (joined (values_in pages.new.items) ≡ before (values_in pages.old.items) spot ++ arc_value entry ∷ beyond (values_in pages.old.items) spot) }
    ensures err { OnErr result (values_in pages.new.items ≡ values_in pages.old.items) }
    ensures fit { AreFit (values_in pages.new.items) }
{
    replace_in(&mut pages[spot.page], spot.at, entry)
}

/// The value at a place among pages, to write.
pub(crate) fn value_at<V: Drop>(
    pages: &mut Vec<Arc<Page<V>>>,
    spot: Spot,
) -> Result<&mut V, AllocError>
    requires fit { AreFit (values_in pages.old.items) }
    requires page { spot.page < vec_len pages.old }
    requires at { spot.at < length (page_at (values_in pages.old.items) spot.page) }
    ensures* writes_back { sem 𝓛 (lends_there V.row pages.entry spot result) }
    ensures value { IfOk result (λ x. option_map (λ e. e.1) (slice_get (page_at (values_in pages.old.items) spot.page) spot.at) ≡ Some x.now) }
{
    value_in(&mut pages[spot.page], spot.at)
}

/// Takes the entry at a place among pages out, and its page, if it was the last there.
pub(crate) fn take_out<V: Drop>(pages: &mut Vec<Arc<Page<V>>>, spot: Spot) -> Result<(), AllocError>
    requires fit { AreFit (values_in pages.old.items) }
    requires page { spot.page < vec_len pages.old }
    requires at { spot.at < length (page_at (values_in pages.old.items) spot.page) }
    ensures ok { OnOk result (joined (values_in pages.new.items) ≡ before (values_in pages.old.items) spot ++ beyond (values_in pages.old.items) spot) }
    ensures err { OnErr result (values_in pages.new.items ≡ values_in pages.old.items) }
    ensures fit { AreFit (values_in pages.new.items) }
{
    if page_len(pages, spot.page) == 1 {
        drop(pages.remove(spot.page));
        return Ok(());
    }
    take_from(&mut pages[spot.page], spot.at)
}

/// Puts what stays of a page after others: the entries before one place and those from another on.
fn keep_part<V: Drop>(
    kept: &mut Vec<Arc<Page<V>>>,
    alloc: Global,
    page: &Arc<Page<V>>,
    from: usize,
    to: usize,
) -> Result<(), AllocError>
    requires order { from ≤ to }
    requires to { to ≤ length (arc_value page.now) }
    requires fit { IsFit (arc_value page.now) }
    requires others { AreFit (values_in kept.old.items) }
    ensures ok { OnOk result (joined (values_in kept.new.items) ≡ joined (values_in kept.old.items) ++ (take from (arc_value page.now) ++ drop to (arc_value page.now))) }
    ensures fit { AreFit (values_in kept.new.items) }
{
    if from == 0 && to == page.len() {
        return Ok(());
    }
    kept.push(part(page, alloc, from, to)?)?;
    Ok(())
}

/// Takes the entries between two places of one page out.
fn cut<V: Drop>(
    pages: &mut Vec<Arc<Page<V>>>,
    alloc: Global,
    page: usize,
    from: usize,
    to: usize,
) -> Result<(), AllocError>
    requires fit { AreFit (values_in pages.old.items) }
    requires page { page < vec_len pages.old }
    requires order { from ≤ to }
    requires to { to ≤ length (page_at (values_in pages.old.items) page) }
    ensures ok { OnOk result (joined (values_in pages.new.items) ≡ before (values_in pages.old.items) (record { page = page; at = from }) ++ after (values_in pages.old.items) (record { page = page; at = to })) }
    ensures err { OnErr result (values_in pages.new.items ≡ values_in pages.old.items) }
    ensures fit { AreFit (values_in pages.new.items) }
{
    if from == to {
        return Ok(());
    }
    let part = part(&pages[page], alloc, from, to)?;
    if part.len() == 0 {
        drop(part);
        drop(pages.remove(page));
        return Ok(());
    }
    pages[page] = part;
    Ok(())
}

/// The pages before one place and those from another on, in other pages.
fn kept_pages<V: Drop>(
    pages: &[Arc<Page<V>>],
    alloc: Global,
    from: Spot,
    to: Spot,
) -> Result<Vec<Arc<Page<V>>>, AllocError>
    requires fit { AreFit (values_in pages.now) }
    requires page { from.page < length pages.now }
    requires at { from.at ≤ length (page_at (values_in pages.now) from.page) }
    requires to_page { to.page < length pages.now }
    requires to_at { to.at ≤ length (page_at (values_in pages.now) to.page) }
    ensures ok { IfOk result (λ kept. joined (values_in kept.items) ≡ before (values_in pages.now) from ++ after (values_in pages.now) to) }
    ensures fit { IfOk result (λ kept. AreFit (values_in kept.items)) }
{
    let mut kept = Vec::new(alloc);
    kept.extend_with_clones(&pages[..from.page])?;
    let page = &pages[from.page];
    keep_part(&mut kept, alloc, page, from.at, page.len())?;
    keep_part(&mut kept, alloc, &pages[to.page], 0, to.at)?;
    kept.extend_with_clones(&pages[to.page + 1..])?;
    Ok(kept)
}

/// Takes the entries between two places out. Whole pages between them go as they are.
pub(crate) fn remove_between<V: Drop>(
    pages: &mut Vec<Arc<Page<V>>>,
    from: Spot,
    to: Spot,
) -> Result<(), AllocError>
    requires fit { AreFit (values_in pages.old.items) }
    requires from { IsWithin (values_in pages.old.items) from }
    requires to { IsWithin (values_in pages.old.items) to }
    requires order { from.page ≡ to.page → from.at ≤ to.at }
    ensures ok { OnOk result (joined (values_in pages.new.items) ≡ before (values_in pages.old.items) from ++ after (values_in pages.old.items) to) }
    ensures err { OnErr result (values_in pages.new.items ≡ values_in pages.old.items) }
    ensures fit { AreFit (values_in pages.new.items) }
{
    if pages.is_empty() {
        return Ok(());
    }
    let alloc = *pages.allocator();
    if from.page == to.page {
        return cut(pages, alloc, from.page, from.at, to.at);
    }
    *pages = kept_pages(pages, alloc, from, to)?;
    Ok(())
}
