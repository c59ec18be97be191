//! A reader that isn't told which history it reads.

use crate::book::Front;
use crate::numbered::Numbered;
use crate::pair::{PairReader, look};
use std::alloc::AllocError;

/// A reader of which contracts say nothing but the type of what it gives. It is made to lie under a lock, where a contract could say no more.
#[derive(Drop)]
pub struct AnyReader<E: Numbered + Drop> {
    reader: Option<PairReader<E>>,
    front: Front<E>,
}

impl<E: Numbered + Drop> AnyReader<E> {
    pub(crate) fn of(reader: Option<PairReader<E>>, front: Front<E>) -> AnyReader<E> {
        AnyReader { reader, front }
    }

    /// An entry that was published. An error where there is no memory for its copy, and always where `open_locked` found no place for this reader.
    pub fn read(&mut self) -> Result<E, AllocError> {
        let Some(reader) = self.reader.take() else {
            return Err(AllocError);
        };
        let (reader, found) = look(reader, self.front.entry().number());
        match self.reader.replace(reader) {
            None => {}
            Some(_) => unreachable!(),
        }
        if let Some(Some(front)) = found {
            self.front = front?;
        }
        self.front.entry().again()
    }
}
