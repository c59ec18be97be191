//! The end that publishes, and how a history opens.
ghost use Rattle.std.specs.Prelude.{◌≡◌, ◌≤◌, ◌<◌, ◌++◌, ◌∷◌, [], Some, IfOk, IfErr};
ghost use Rattle.left_right.specs.Sides.{view as seen_by};
ghost use Rattle.crossbeam_queue.specs.Passes.{view as known_by, IsPassOf};
ghost use Rattle.published.specs.Commits.{latest, IsNumbered, MayFollow};
ghost use Rattle.published.specs.Stock.{AreOfOne};

use crate::any_reader::AnyReader;
use crate::book::{Count, Front};
use crate::numbered::Numbered;
use crate::pair::{PairWriter, informed, open_pair, publish, untold, untold_pair};
use crate::readers::Reader;
use crate::receipts::Receipt;
use crate::stock::{Stock, StockPass, begin, empty, rest, take};
use left_right::Absorb;
use std::alloc::{AllocError, Global};
use std::marker::Model;
use std::sync::{Arc, Wait};

/// The one end that publishes. Contracts see the whole history, as a `Past`. It is not `Drop`: end it by `close`.
pub struct Publisher<E: Numbered + Drop>
where
    Front<E>: Absorb<(), State = ()>,
{
    writer: Option<PairWriter<E>>,
    count: Count<E>,
    added: u64,
    front: Front<E>,
}

impl<E: Numbered + Drop> Model for Publisher<E>
where
    Front<E>: Absorb<(), State = ()>,
{
    ghost use Rattle.std.specs.Prelude.{◌≡◌, ◌+◌, length};
    ghost use Rattle.published.specs.History.{Past, head_of};
    ghost use Rattle.published.specs.Store.{IsShown};

    ghost Value = { Past E };

    ghost view = { λ d. d.front };

    ghost invariant = { λ d. IsShown (λ w. w.desk.shown.value) d.front d.writer × (d.count ≡ head_of d.front.book)
        × (d.added + 1 ≡ length d.front.list) };
}

impl<E: Numbered + Drop> Publisher<E>
where
    Front<E>: Absorb<(), State = ()>,
{
    /// The entry that was published last.
    pub fn current(&self) -> &E
        ensures last { result.now ≡ self.now.last }
        ensures list { (latest self.now.list ≡ Some self.now.last) × IsNumbered E.number_of self.now.list }
    {
        self.front.entry()
    }

    /// Publishes an entry, whose number is the next one. Where memory is refused, nothing is published and all is as before.
    ///
    /// It waits for the readers that are within a call since before the last publication, and for those that are as it shows the entry. Afterwards the
    /// entry before is held only by those that hold a copy of it: both of the copies that are kept for readers are the new one.
    pub fn commit<R: Wait>(&mut self, rt: &R, next: E) -> Result<(), AllocError>
        requires { MayFollow E.number_of self.old.list next }
        ensures ok { IfOk result (λ _. (self.new.book ≡ self.old.book) × (self.new.list ≡ self.old.list ++ next ∷ []) × (self.new.last ≡ next)) }
        ensures err { IfErr result (λ _. self.new ≡ self.old) }
    {
        // All memory is taken here: once the entry stands in the history, nothing may be refused.
        let (one, other) = (next.again()?, next.again()?);
        let _number = next.number();
        let _last = self.front.entry();
        let added = self.added + 1;
        // Nothing else adds to this history, so the count is the expected one. No clause says that, and so this tests it.
        let Some(front) = self.front.add(&self.count, self.added, next) else {
            return Err(AllocError);
        };
        let shown = front.twin(one);
        let spare = front.twin(other);
        let Some(writer) = self.writer.take() else {
            unreachable!()
        };
        // Shown twice, since the copy that readers leave still has the entry before.
        let writer = publish(rt, writer, shown);
        match self.writer.replace(publish(rt, writer, spare)) {
            None => {}
            Some(old) => {
                old.take(rt);
            }
        }
        self.front = front;
        self.added = added;
        Ok(())
    }

    /// Word of all that was published so far, an error where there is no memory for it.
    pub fn receipt(&self) -> Result<Receipt<E>, AllocError>
        ensures told { IfOk result (λ r. r ≡ self.now) }
    {
        Ok(Receipt::of(self.front.again()?))
    }
}

// Without a bound of its own on `Front`: no caller of a method that takes `self` by value under such a bound is covered by the toolchain's borrow checker.
impl<E: Numbered + Drop> Publisher<E> {
    /// Ends publishing, after which readers keep what they hold. It takes no memory, and waits for readers that are within a call.
    pub fn close<R: Wait>(self, rt: &R) {
        let Publisher {
            writer,
            count: _count,
            added: _,
            front: _front,
        } = self;
        if let Some(writer) = writer {
            writer.take(rt);
        }
    }
}

/// Puts so many more readers into the stock.
fn fill<E: Numbered + Drop>(
    writer: &mut PairWriter<E>,
    stock: &Stock<E>,
    pass: &mut StockPass<E>,
    more: usize,
) -> Result<(), AllocError>
where
    Front<E>: Absorb<(), State = ()>,
    requires pass { IsPassOf stock.now pass.old × AreOfOne (known_by pass.old) (seen_by writer.old.desk.place) }
    ensures pass { IsPassOf stock.now pass.new × AreOfOne (known_by pass.old) (known_by pass.new) }
    ensures kept { writer.new.desk.shown ≡ writer.old.desk.shown }
{
    for _ in 0..more {
        rest(stock, pass, informed(writer)?);
    }
    Ok(())
}

/// A history that opens with `first`: its first reader and its publishing end, with places for so many readers at once, the first among them. Each place
/// takes some 330 octets. An error where there is no memory.
///
/// It takes `rt` since the publishing end takes a step here, by which it is told its own history. Nobody reads yet, so it waits for nobody.
pub fn open<E: Numbered + Drop, R: Wait>(
    alloc: Global,
    rt: &R,
    first: E,
    readers: usize,
) -> Result<(Reader<E>, Publisher<E>), AllocError>
where
    Front<E>: Absorb<(), State = ()>,
    requires readers { (1 ≤ readers) × (readers < 4096) }
    ensures pair { IfOk result (λ t. t.0.book ≡ t.1.book) }
    ensures lists { IfOk result (λ t. (t.0.list ≡ first ∷ []) × (t.1.list ≡ first ∷ [])) }
    ensures lasts { IfOk result (λ t. (t.0.last ≡ first) × (t.1.last ≡ first)) }
    ensures fresh { IfOk result (λ t. t.0.refused ≡ 0) }
{
    let (front, count) = Front::open(first);
    let (shown, spare, seen) = (front.again()?, front.again()?, front.again()?);
    let (stock, mut pass) = empty(alloc, readers)?;
    let stock = Arc::new(alloc, stock)?;
    let mut writer = open_pair(alloc, rt, shown, spare, readers)?;
    if let Ok(resting) = informed(&mut writer)
        && begin(&stock, &mut pass, resting)
        && fill(&mut writer, &stock, &mut pass, readers - 1).is_ok()
        && let Some(reader) = take(&stock, &mut pass)
    {
        let publisher = Publisher {
            writer: Some(writer),
            count,
            added: 0,
            front,
        };
        return Ok((Reader::of(reader, seen, stock, pass), publisher));
    }
    writer.take(rt);
    Err(AllocError)
}

/// The same for a caller that has no `rt`, and so waits for nothing: the reader isn't told which history it reads, and there is no other reader than this
/// one. An error where there is no memory.
pub fn open_locked<E: Numbered + Drop>(
    alloc: Global,
    first: E,
    readers: usize,
) -> Result<(AnyReader<E>, Publisher<E>), AllocError>
where
    Front<E>: Absorb<(), State = ()>,
    requires readers { (1 ≤ readers) × (readers < 4096) }
    ensures list { IfOk result (λ t. t.1.list ≡ first ∷ []) }
    ensures last { IfOk result (λ t. t.1.last ≡ first) }
{
    let (front, count) = Front::open(first);
    let (shown, spare, held) = (front.again()?, front.again()?, front.again()?);
    let writer = untold_pair(alloc, shown, spare, readers)?;
    // From here on nothing may be refused: a writer can't be let go without `rt`.
    let reader = untold(&writer).ok();
    let publisher = Publisher {
        writer: Some(writer),
        count,
        added: 0,
        front,
    };
    Ok((AnyReader::of(reader, held), publisher))
}
