// Entries and histories that several modules of tests use.
ghost use Rattle.std.specs.Prelude.{◌≡◌, ◌≤◌, ◌<◌, ◌∷◌, [], IfOk};

use published::{Numbered, Publisher, Reader, open};
use std::alloc::{AllocError, Global};
use std::fmt::Debug;
use std::marker::Model;
use std::process::Abort;
use std::sync::Wait;

/// An entry whose copies take memory. Its octets say its number a second time; contracts see it as the number.
#[derive(Drop)]
pub(crate) struct Entry {
    number: u64,
    octets: Vec<u8>,
}

impl Model for Entry {
    ghost use Rattle.std.specs.Prelude.{ℕ};

    ghost Value = { ℕ };

    ghost view = { λ e. e.number };
}

impl Numbered for Entry {
    ghost number_of = { λ e. e };

    fn number(&self) -> u64 {
        self.number
    }

    fn again(&self) -> Result<Entry, AllocError> {
        Ok(Entry {
            number: self.number,
            octets: self.octets.clone()?,
        })
    }
}

impl Entry {
    pub(crate) fn new(alloc: Global, number: u64) -> Result<Entry, AllocError>
        ensures { IfOk result (λ e. e ≡ number) }
    {
        let octets = Vec::from_slice(alloc, number.to_be_bytes().as_slice())?;
        Ok(Entry { number, octets })
    }

    /// Whether the octets say the number.
    pub(crate) fn is_whole(&self) -> bool {
        self.octets.as_slice() == self.number.to_be_bytes().as_slice()
    }
}

/// Asserts that a value is the one that is wanted.
pub(crate) fn is<R: Abort, T: PartialEq + Debug + Drop>(rt: &R, found: T, wanted: T) {
    assert_eq!(rt; found, wanted);
    drop(wanted);
    drop(found);
}

/// A history that opens with the entry of this number.
pub(crate) fn opened<R: Wait>(
    rt: &R,
    alloc: Global,
    number: u64,
    readers: usize,
) -> Result<(Reader<Entry>, Publisher<Entry>), AllocError>
    requires { (1 ≤ readers) × (readers < 4096) }
    ensures { IfOk result (λ t. t.0.book ≡ t.1.book) }
{
    open(alloc, rt, Entry::new(alloc, number)?, readers)
}

/// Publishes the entry of the next number.
pub(crate) fn commit_next<R: Wait>(
    rt: &R,
    alloc: Global,
    publisher: &mut Publisher<Entry>,
) -> Result<(), AllocError>
    ensures { publisher.new.book ≡ publisher.old.book }
{
    let last = publisher.current().number();
    if last == u64::MAX {
        return Err(AllocError);
    }
    publisher.commit(rt, Entry::new(alloc, last + 1)?)
}

/// The number of what a reader holds.
pub(crate) fn held_number(reader: &Reader<Entry>) -> u64 {
    reader.held().number()
}

/// The number of what a reader gives, none where memory is refused.
pub(crate) fn read_number(reader: &mut Reader<Entry>) -> Option<u64>
    ensures { reader.new.book ≡ reader.old.book }
{
    match reader.read() {
        Ok(entry) => Some(entry.number()),
        Err(_) => None,
    }
}
