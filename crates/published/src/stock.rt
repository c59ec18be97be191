//! Readers that nobody uses now. They are made at once, when the history opens, since only the publishing end can tell a reader which history it reads.
ghost use Rattle.std.specs.Prelude.{◌≡◌, ◌<◌, None, Some, IfOk, IfSome, IsTrue};
ghost use Rattle.left_right.specs.Sides.{view as seen_by};
ghost use Rattle.crossbeam_queue.specs.Passes.{view as known_by, IsPassOf};
ghost use Rattle.published.specs.Stock.{AreOfOne};

use crate::book::Front;
use crate::numbered::Numbered;
use crate::pair::PairReader;
use atomic_table::Split;
use crossbeam_queue::protocol::{Outcome, Protocol};
use crossbeam_queue::{Pass, RuledArrayQueue};
use std::alloc::{AllocError, Global};

/// All that rests there, and all that take from it, are of one history.
pub struct OneStock;

impl<E: Numbered + Drop> Protocol<PairReader<E>, Option<Front<E>>> for OneStock {
    ghost use Rattle.std.specs.Prelude.{None};
    ghost use Rattle.left_right.specs.Sides.{view as seen_by};
    ghost use Rattle.published.specs.Stock.{KeepsStock};

    ghost holds = { KeepsStock (λ r. seen_by r.place) };

    ghost first = { None };
}

/// A reader is put there.
struct Resting;

impl<E: Numbered + Drop> Outcome<PairReader<E>, Option<Front<E>>> for Resting {
    ghost use Rattle.left_right.specs.Sides.{view as seen_by};
    ghost use Rattle.published.specs.Stock.{Rests};

    ghost then = { Rests (λ r. seen_by r.place) };
}

/// A reader is taken.
struct Leaving;

impl<E: Numbered + Drop> Outcome<PairReader<E>, Option<Front<E>>> for Leaving {
    ghost use Rattle.left_right.specs.Sides.{view as seen_by};
    ghost use Rattle.published.specs.Stock.{Leaves};

    ghost then = { Leaves (λ r. seen_by r.place) };
}

/// A pass is cut in two, and both know the same.
struct Same;

impl<E: Numbered + Drop> Split<Option<Front<E>>> for Same {
    ghost left = { λ v. v };

    ghost right = { λ v. v };
}

pub type Stock<E> = RuledArrayQueue<PairReader<E>, Option<Front<E>>, OneStock>;

pub type StockPass<E> = Pass<PairReader<E>, Option<Front<E>>>;

/// How often a step is tried: another thread may be in its way.
const ATTEMPTS: usize = 64;

/// An empty stock, with room for so many.
pub fn empty<E: Numbered + Drop>(
    alloc: Global,
    room: usize,
) -> Result<(Stock<E>, StockPass<E>), AllocError>
    requires { 0 < room }
    ensures { IfOk result (λ s. IsPassOf s.0 s.1 × (known_by s.1 ≡ None)) }
{
    Stock::<E>::ruled(alloc, room)
}

/// Puts the first reader there, whose history the stock is then of.
pub fn begin<E: Numbered + Drop>(
    stock: &Stock<E>,
    pass: &mut StockPass<E>,
    reader: PairReader<E>,
) -> bool
    requires pass { IsPassOf stock.now pass.old × (known_by pass.old ≡ None) }
    requires reader { AreOfOne (seen_by reader.place) (seen_by reader.place) }
    ensures pass { IsPassOf stock.now pass.new }
    ensures begun { IsTrue result → known_by pass.new ≡ seen_by reader.place }
{
    stock.try_push_as::<Resting>(pass, reader).is_ok()
}

/// Puts a reader there. Where there is no room, it ends.
pub fn rest<E: Numbered + Drop>(stock: &Stock<E>, pass: &mut StockPass<E>, reader: PairReader<E>)
    requires pass { IsPassOf stock.now pass.old }
    requires one { AreOfOne (known_by pass.old) (seen_by reader.place) }
    ensures pass { IsPassOf stock.now pass.new }
    ensures one { AreOfOne (known_by pass.old) (known_by pass.new) }
{
    let mut reader = reader;
    for _ in 0..ATTEMPTS {
        match stock.try_push_as::<Resting>(pass, reader) {
            Ok(()) => return,
            Err(back) => reader = back,
        }
    }
}

/// Takes a reader. None where nothing rests there, or other threads were in the way each time.
pub fn take<E: Numbered + Drop>(stock: &Stock<E>, pass: &mut StockPass<E>) -> Option<PairReader<E>>
    requires pass { IsPassOf stock.now pass.old }
    requires known { AreOfOne (known_by pass.old) (known_by pass.old) }
    ensures pass { IsPassOf stock.now pass.new × (known_by pass.new ≡ known_by pass.old) }
    ensures one { IfSome result (λ r. AreOfOne (known_by pass.old) (seen_by r.place)) }
{
    for _ in 0..ATTEMPTS {
        let found = stock.try_pop_as::<Leaving>(pass);
        if found.is_some() {
            return found;
        }
    }
    None
}

/// Another pass, which knows the same.
pub fn cut<E: Numbered + Drop>(stock: &Stock<E>, pass: &mut StockPass<E>) -> StockPass<E>
    requires pass { IsPassOf stock.now pass.old }
    requires known { AreOfOne (known_by pass.old) (known_by pass.old) }
    ensures pass { IsPassOf stock.now pass.new × (known_by pass.new ≡ known_by pass.old) }
    ensures cut { IsPassOf stock.now result × (known_by result ≡ known_by pass.old) }
{
    stock.another::<Same>(pass)
}
