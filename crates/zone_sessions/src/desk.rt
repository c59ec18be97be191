// Where one end writes a zone and readers on other threads read it.
ghost use Rattle.std.specs.Prelude.{◌≡◌, ◌≤◌, ◌<◌, ◌+◌, ◌∷◌, [], Some, IfOk, OnOk, OnErr};
ghost use Rattle.published.specs.Commits.{latest, IsNumbered};
ghost use Rattle.zone_model.specs.Commits.{Commit};
ghost use Rattle.zone_reads.specs.Session.{new_session, with_commit};

use crate::write::WriteZone;
use published::{Publisher, open, open_locked};
use std::alloc::{AllocError, Global};
use std::marker::Model;
use std::sync::Wait;
use zone_reads::{ReadZone, Receipt, ZoneReader};

/// How many readers there may be at once of a zone that a builder opens.
pub const MOST_READERS: usize = 17;

/// The one end that writes a zone. Contracts see all that it has committed, as a `Past`. It is not `Drop`: end it by `close`.
pub struct Desk {
    publisher: Publisher<ReadZone>,
}

impl Model for Desk {
    ghost use Rattle.published.specs.History.{Past};
    ghost use Rattle.zone_model.specs.Commits.{Commit};

    ghost Value = { Past Commit };

    ghost view = { λ d. d.publisher };
}

impl Desk {
    /// A zone whose first version is this one: its first reader and its desk, with places for so many readers at once, the first among them. It waits for
    /// nobody, since nobody reads yet. Refused only where memory runs out.
    pub fn open<R: Wait>(
        alloc: Global,
        rt: &R,
        first: ReadZone,
        readers: usize,
    ) -> Result<(ZoneReader, Desk), AllocError>
        requires readers { (1 ≤ readers) × (readers < 4096) }
        ensures pair { IfOk result (λ t. t.0.book ≡ t.1.book) }
        ensures lists { IfOk result (λ t. (t.0.list ≡ first ∷ []) × (t.1.list ≡ first ∷ [])) }
        ensures lasts { IfOk result (λ t. (t.0.last ≡ first) × (t.1.last ≡ first)) }
        ensures fresh { IfOk result (λ t. t.0.refused ≡ 0) }
    {
        let (reader, publisher) = open(alloc, rt, first, readers)?;
        Ok((reader, Desk { publisher }))
    }

    /// The same for a zone that is read under its owner's lock, without readers of its own.
    pub(crate) fn open_locked(alloc: Global, first: ReadZone) -> Result<Desk, AllocError>
        ensures list { IfOk result (λ d. d.list ≡ first ∷ []) }
        ensures last { IfOk result (λ d. d.last ≡ first) }
    {
        let (reader, publisher) = open_locked(alloc, first, 1)?;
        drop(reader);
        Ok(Desk { publisher })
    }

    /// A session that writes the zone's next versions. What it didn't commit is dropped with it.
    pub fn write(&mut self, alloc: Global) -> WriteZone<'_>
        ensures { result ≡ new_session self.old }
    {
        WriteZone::of(alloc, self)
    }

    /// The handle of the version that was committed last, lent.
    pub fn current(&self) -> &ReadZone
        ensures last { result.now ≡ self.now.last }
        ensures list { (latest self.now.list ≡ Some self.now.last) × IsNumbered (λ (c : Commit). c.number) self.now.list }
    {
        self.publisher.current()
    }

    /// Word of all that was committed so far, an error where there is no memory for it.
    pub(crate) fn receipt(&self) -> Result<Receipt, AllocError>
        ensures { IfOk result (λ r. r ≡ self.now) }
    {
        self.publisher.receipt()
    }

    /// Commits a version, whose number is the next one. Where memory is refused, all is as before.
    #[tactic(auto, using(crate::proofs::Histories::may_follow, crate::proofs::Histories::is_with_commit))]
    pub(crate) fn publish<R: Wait>(&mut self, rt: &R, next: ReadZone) -> Result<(), AllocError>
        requires { next.number ≡ self.old.last.number + 1 }
        ensures ok { OnOk result (self.new ≡ with_commit self.old next) }
        ensures err { OnErr result (self.new ≡ self.old) }
    {
        // For the proof: the history ends with the current version.
        let _current = self.publisher.current();
        self.publisher.commit(rt, next)?;
        Ok(())
    }

    /// Ends writing, after which readers keep what they hold. It takes no memory, and waits for readers that are within a call.
    pub fn close<R: Wait>(self, rt: &R) {
        let Desk { publisher } = self;
        publisher.close(rt);
    }
}
