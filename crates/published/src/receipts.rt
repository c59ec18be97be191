//! Receipts: word of what was published, for a reader.
ghost use Rattle.std.specs.Prelude.{◌≡◌, Some, IfOk};
ghost use Rattle.published.specs.Commits.{latest, IsNumbered};

use crate::book::Front;
use crate::numbered::Numbered;
use std::alloc::AllocError;
use std::marker::Model;

/// All that was published up to one entry, with that entry. Contracts see it as a `Past`.
#[derive(Drop)]
pub struct Receipt<E: Numbered + Drop> {
    front: Front<E>,
}

impl<E: Numbered + Drop> Model for Receipt<E> {
    ghost use Rattle.published.specs.History.{Past};

    ghost Value = { Past E };

    ghost view = { λ r. r.front };
}

impl<E: Numbered + Drop> Receipt<E> {
    pub(crate) fn of(front: Front<E>) -> Receipt<E>
        ensures { result ≡ front }
    {
        Receipt { front }
    }

    pub(crate) fn front(&self) -> Result<Front<E>, AllocError>
        ensures { IfOk result (λ f. f ≡ self.now) }
    {
        self.front.again()
    }

    /// The entry that had been published last.
    pub fn entry(&self) -> &E
        ensures last { result.now ≡ self.now.last }
        ensures list { (latest self.now.list ≡ Some self.now.last) × IsNumbered E.number_of self.now.list }
    {
        self.front.entry()
    }
}
