// What one reader sees, learns and holds.
ghost use Rattle.std.specs.Prelude.{◌≡◌, IfOk};

use crate::common::{Entry, commit_next, held_number, is, opened, read_number};
use published::{Numbered, Publisher, Reader, Receipt, open, open_locked};
use std::alloc::{AllocError, Global};
use std::marker::Model;
use std::sync::{Arc, Wait};

#[test]
fn what_is_published_is_read(rt: HostRuntime) {
    let alloc = rt.alloc();
    let (mut reader, mut publisher) = opened(&rt, alloc, 7, 2).expect(&rt, "memory");
    is(&rt, held_number(&reader), 7);
    commit_next(&rt, alloc, &mut publisher).expect(&rt, "memory");
    is(&rt, publisher.current().number(), 8);
    is(&rt, held_number(&reader), 7);
    reader.refresh().expect(&rt, "memory");
    is(&rt, held_number(&reader), 8);
    commit_next(&rt, alloc, &mut publisher).expect(&rt, "memory");
    is(&rt, read_number(&mut reader), Some(9));
    is(&rt, reader.refused(), 0);
    publisher.close(&rt);
    drop(reader);
}

#[test]
fn readers_that_learnt_nothing(rt: HostRuntime) {
    let alloc = rt.alloc();
    let (mut reader, mut publisher) = opened(&rt, alloc, 7, 3).expect(&rt, "memory");
    let mut before = reader.another().expect(&rt, "a place");
    commit_next(&rt, alloc, &mut publisher).expect(&rt, "memory");
    let mut behind = reader.another().expect(&rt, "a place");
    is(&rt, held_number(&behind), 7);
    is(&rt, read_number(&mut before), Some(8));
    is(&rt, read_number(&mut behind), Some(8));
    publisher.close(&rt);
    drop(behind);
    drop(before);
    drop(reader);
}

#[test]
fn what_is_held_stays(rt: HostRuntime) {
    let alloc = rt.alloc();
    let (mut reader, mut publisher) = opened(&rt, alloc, 7, 1).expect(&rt, "memory");
    let copy = reader.read().expect(&rt, "memory");
    commit_next(&rt, alloc, &mut publisher).expect(&rt, "memory");
    commit_next(&rt, alloc, &mut publisher).expect(&rt, "memory");
    let lent = reader.held();
    is(&rt, (lent.number(), lent.is_whole()), (7, true));
    is(&rt, read_number(&mut reader), Some(9));
    is(&rt, (copy.number(), copy.is_whole()), (7, true));
    publisher.close(&rt);
    drop(copy);
    drop(reader);
}

/// Afterwards a receipt of the last commit, and what the reader holds then.
fn learnt<R: Wait>(rt: &R, alloc: Global) -> Result<(u64, u64, u64), AllocError> {
    let (mut reader, mut publisher) = opened(rt, alloc, 7, 1)?;
    let committed = commit_next(rt, alloc, &mut publisher);
    let receipt = publisher.receipt();
    publisher.close(rt);
    committed?;
    let mut receipt = receipt?;
    let before = held_number(&reader);
    reader.learn(&mut receipt)?;
    Ok((before, receipt.entry().number(), held_number(&reader)))
}

#[test]
fn a_receipt_is_learnt(rt: HostRuntime) {
    is(
        &rt,
        learnt(&rt, rt.alloc()).expect(&rt, "memory"),
        (7, 8, 8),
    );
}

fn receipt_of<R: Wait>(rt: &R, alloc: Global, number: u64) -> Result<Receipt<Entry>, AllocError> {
    let (_reader, publisher) = opened(rt, alloc, number, 1)?;
    let receipt = publisher.receipt();
    publisher.close(rt);
    receipt
}

#[test]
fn receipts_of_another_history(rt: HostRuntime) {
    let alloc = rt.alloc();
    let older = receipt_of(&rt, alloc, 5).expect(&rt, "memory");
    let newer = receipt_of(&rt, alloc, 9).expect(&rt, "memory");
    let (mut reader, publisher) = opened(&rt, alloc, 7, 1).expect(&rt, "memory");
    let after_older = reader.read_after(&older).expect(&rt, "memory");
    is(&rt, after_older.number(), 7);
    let after_newer = reader.read_after(&newer).expect(&rt, "memory");
    is(
        &rt,
        (after_newer.number(), after_newer.is_whole()),
        (9, true),
    );
    is(&rt, held_number(&reader), 7);
    publisher.close(&rt);
    drop(after_newer);
    drop(after_older);
    drop(reader);
    drop(newer);
    drop(older);
}

#[test]
fn publishing_has_ended(rt: HostRuntime) {
    let alloc = rt.alloc();
    let (mut reader, mut publisher) = opened(&rt, alloc, 7, 2).expect(&rt, "memory");
    commit_next(&rt, alloc, &mut publisher).expect(&rt, "memory");
    publisher.close(&rt);
    is(&rt, reader.refused(), 0);
    is(&rt, read_number(&mut reader), Some(7));
    is(&rt, reader.refused(), 1);
    reader.refresh().expect(&rt, "memory");
    is(&rt, (held_number(&reader), reader.refused()), (7, 2));
    let mut other = reader.another().expect(&rt, "a place");
    is(&rt, read_number(&mut other), Some(7));
    is(&rt, (other.refused(), reader.refused()), (1, 2));
    drop(other);
    drop(reader);
}

#[test]
fn a_reader_without_rt(rt: HostRuntime) {
    let alloc = rt.alloc();
    let first = Entry::new(alloc, 7).expect(&rt, "memory");
    let (mut reader, mut publisher) = open_locked(alloc, first, 1).expect(&rt, "memory");
    let found = reader.read().expect(&rt, "memory");
    is(&rt, found.number(), 7);
    drop(found);
    commit_next(&rt, alloc, &mut publisher).expect(&rt, "memory");
    let found = reader.read().expect(&rt, "memory");
    is(&rt, (found.number(), found.is_whole()), (8, true));
    drop(found);
    publisher.close(&rt);
    let found = reader.read().expect(&rt, "memory");
    is(&rt, found.number(), 8);
    drop(found);
    drop(reader);
}

/// An entry whose copies share what it holds. Contracts see it as its number.
#[derive(Drop)]
struct Shared {
    number: u64,
    held: Arc<u64>,
}

impl Model for Shared {
    ghost use Rattle.std.specs.Prelude.{ℕ};

    ghost Value = { ℕ };

    ghost view = { λ s. s.number };
}

impl Numbered for Shared {
    ghost number_of = { λ s. s };

    fn number(&self) -> u64 {
        self.number
    }

    fn again(&self) -> Result<Shared, AllocError> {
        Ok(Shared {
            number: self.number,
            held: Arc::try_clone(&self.held)?,
        })
    }
}

fn shared_entry(alloc: Global, number: u64) -> Result<Shared, AllocError>
    ensures { IfOk result (λ s. s ≡ number) }
{
    let held = Arc::new(alloc, number)?;
    Ok(Shared { number, held })
}

#[test]
fn the_entry_before_is_let_go(rt: HostRuntime) {
    let alloc = rt.alloc();
    let first = shared_entry(alloc, 7).expect(&rt, "memory");
    let kept = first.held.clone().expect(&rt, "memory");
    let (mut reader, mut publisher) = open(alloc, &rt, first, 1).expect(&rt, "memory");
    let next = shared_entry(alloc, 8).expect(&rt, "memory");
    publisher.commit(&rt, next).expect(&rt, "memory");
    // What is kept here, and what the reader holds.
    is(&rt, Arc::strong_count(&kept), 2);
    reader.refresh().expect(&rt, "memory");
    is(&rt, Arc::strong_count(&kept), 1);
    publisher.close(&rt);
    drop(reader);
    drop(kept);
}
