//! Readers. None of their calls waits, and none takes `rt`.
ghost use Rattle.std.specs.Prelude.{◌≡◌, ◌≤◌, Some, IfOk, IfErr};
ghost use mathlib.Core.List.{IsPrefix};
ghost use Rattle.std.specs.Arc.{arc_value};
ghost use Rattle.left_right.specs.Sides.{view as seen_by};
ghost use Rattle.crossbeam_queue.specs.Passes.{view as known_by, IsPassOf};
ghost use Rattle.published.specs.Commits.{latest, IsNumbered};
ghost use Rattle.published.specs.Stock.{IsOf};
ghost use Rattle.published.specs.Store.{Rose};
ghost use Rattle.published.specs.declared.readers.ReaderError.TheVariants.{NoPlace};

use crate::book::Front;
use crate::numbered::Numbered;
use crate::pair::{PairReader, look};
use crate::receipts::Receipt;
use crate::stock::{Stock, StockPass, cut, rest, take};
use std::alloc::AllocError;
use std::marker::Model;
use std::sync::Arc;
use thiserror::Error;

/// Why there is no other reader.
#[derive(Clone, Copy, Debug, PartialEq, Eq, Error)]
pub enum ReaderError {
    /// All places are in use. The count of refusals rose, or stands at its greatest number.
    #[error("no place for another reader")]
    NoPlace,
    /// There was no memory.
    #[error("out of memory")]
    Memory,
}

/// A reader. Contracts see the longest beginning of its history that it has seen or learnt, and how often it was refused, as `Reads`.
///
/// Its place is free again once it is let go.
pub struct Reader<E: Numbered + Drop> {
    reader: Option<PairReader<E>>,
    front: Front<E>,
    refused: u64,
    stock: Arc<Stock<E>>,
    pass: StockPass<E>,
}

impl<E: Numbered + Drop> Model for Reader<E> {
    ghost use Rattle.std.specs.Arc.{arc_value};
    ghost use Rattle.left_right.specs.Sides.{view as seen_by};
    ghost use Rattle.crossbeam_queue.specs.Passes.{view as known_by, IsPassOf};
    ghost use Rattle.published.specs.Stock.{IsOf};
    ghost use Rattle.published.specs.Store.{Reads, IsThereOf};

    ghost Value = { Reads E };

    ghost view = { λ z. record { book = z.front.book; list = z.front.list; last = z.front.last; refused = z.refused } };

    ghost invariant = { λ z. IsThereOf (λ r. seen_by r.place) z.front.book z.reader
        × IsPassOf (arc_value z.stock) z.pass × IsOf z.front.book (known_by z.pass) };
}

fn one_more(count: u64) -> u64
    ensures { (count ≤ result) × Rose count result }
{
    if count < u64::MAX { count + 1 } else { count }
}

impl<E: Numbered + Drop> Reader<E> {
    pub(crate) fn of(
        reader: PairReader<E>,
        front: Front<E>,
        stock: Arc<Stock<E>>,
        pass: StockPass<E>,
    ) -> Reader<E>
        requires reader { IsOf front.book (seen_by reader.place) }
        requires pass { IsPassOf (arc_value stock) pass × IsOf front.book (known_by pass) }
        ensures { result ≡ record { book = front.book; list = front.list; last = front.last; refused = 0 } }
    {
        Reader {
            reader: Some(reader),
            front,
            refused: 0,
            stock,
            pass,
        }
    }

    /// How many calls were refused this reader: for want of a place, or since publishing has ended. At 2^64 - 1 it stays.
    pub fn refused(&self) -> u64
        ensures { result ≡ self.now.refused }
    {
        self.refused
    }

    /// Takes what is published now, where it is newer than what this reader holds, else copies nothing. Once publishing has ended it counts a refusal.
    ///
    /// An error where there is no memory for the copy: then the reader holds what it held.
    pub fn refresh(&mut self) -> Result<(), AllocError>
        ensures book { self.new.book ≡ self.old.book }
        ensures begins { IsPrefix self.old.list self.new.list }
        ensures counts { self.old.refused ≤ self.new.refused }
    {
        let held = self.front.entry().number();
        let Some(reader) = self.reader.take() else {
            unreachable!()
        };
        let (reader, found) = look(reader, held);
        match self.reader.replace(reader) {
            None => {}
            Some(_) => unreachable!(),
        }
        match found {
            Some(Some(front)) => self.front.advance(front?),
            Some(None) => {}
            None => self.refused = one_more(self.refused),
        }
        Ok(())
    }

    /// What this reader saw or learnt last, lent.
    pub fn held(&self) -> &E
        ensures last { result.now ≡ self.now.last }
        ensures list { (latest self.now.list ≡ Some self.now.last) × IsNumbered E.number_of self.now.list }
    {
        self.front.entry()
    }

    /// `refresh`, and a copy of what is held then. An error where there is no memory for a copy.
    pub fn read(&mut self) -> Result<E, AllocError>
        ensures book { self.new.book ≡ self.old.book }
        ensures begins { IsPrefix self.old.list self.new.list }
        ensures counts { self.old.refused ≤ self.new.refused }
        ensures last { IfOk result (λ z. z ≡ self.new.last) }
    {
        self.refresh()?;
        self.front.entry().again()
    }

    /// From now on this reader holds the receipt's entry or a later one. An error where there is no memory: then it learnt nothing.
    pub fn learn(&mut self, receipt: &mut Receipt<E>) -> Result<(), AllocError>
        requires pair { receipt.old.book ≡ self.old.book }
        ensures receipt { receipt.new ≡ receipt.old }
        ensures book { (self.new.book ≡ self.old.book) × (self.new.refused ≡ self.old.refused) }
        ensures begins { IsPrefix self.old.list self.new.list }
        ensures learnt { IfOk result (λ _. IsPrefix receipt.old.list self.new.list) }
    {
        self.front.advance(receipt.front()?);
        Ok(())
    }

    /// An entry whose number is no less than that of the receipt's, whichever history the receipt is of: by number alone, and so the receipt's own entry
    /// where what `read` gives is older; nor is it less than what this reader holds then. An error where there is no memory for a copy.
    pub fn read_after(&mut self, receipt: &Receipt<E>) -> Result<E, AllocError>
        ensures book { self.new.book ≡ self.old.book }
        ensures begins { IsPrefix self.old.list self.new.list }
        ensures counts { self.old.refused ≤ self.new.refused }
        ensures number { IfOk result (λ z. E.number_of receipt.now.last ≤ E.number_of z) }
        ensures latest { IfOk result (λ z. E.number_of self.new.last ≤ E.number_of z) }
    {
        let entry = self.read()?;
        if entry.number() < receipt.entry().number() {
            return receipt.entry().again();
        }
        Ok(entry)
    }

    /// Another reader of the same history, for another thread, which has seen and learnt the same. `NoPlace` where all places are in use, or where a place
    /// was held back by a reader that another thread let go at that moment; `Memory` where there is none.
    pub fn another(&mut self) -> Result<Reader<E>, ReaderError>
        ensures same { IfOk result (λ r. (r.book ≡ self.old.book) × (r.list ≡ self.old.list) × (r.last ≡ self.old.last)) }
        ensures kept { (self.new.book ≡ self.old.book) × (self.new.list ≡ self.old.list) × (self.new.last ≡ self.old.last) }
        ensures counts { self.old.refused ≤ self.new.refused }
        ensures no_place { IfErr result (λ e. e ≡ NoPlace → Rose self.old.refused self.new.refused) }
    {
        let Ok(front) = self.front.again() else {
            return Err(ReaderError::Memory);
        };
        let Ok(stock) = Arc::try_clone(&self.stock) else {
            return Err(ReaderError::Memory);
        };
        let Some(reader) = take(&self.stock, &mut self.pass) else {
            self.refused = one_more(self.refused);
            return Err(ReaderError::NoPlace);
        };
        let pass = cut(&self.stock, &mut self.pass);
        Ok(Reader::of(reader, front, stock, pass))
    }
}

impl<E: Numbered + Drop> Drop for Reader<E> {
    fn drop(self) {
        let Self {
            reader,
            front: _front,
            refused: _,
            stock,
            mut pass,
        } = self;
        if let Some(reader) = reader {
            rest(&stock, &mut pass, reader);
        }
    }
}
