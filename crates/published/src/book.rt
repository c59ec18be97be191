//! The history: a book that only grows, and what somebody has seen of it.
ghost use Rattle.std.specs.Prelude.{◌≡◌, ◌+◌, ◌<◌, ◌≤◌, ◌++◌, ◌∷◌, ◌⊎◌, ◌^◌, [], length, Some, IfSome, IfOk, true, false};
ghost use mathlib.Core.List.{IsPrefix};
ghost use Rattle.published.specs.Commits.{latest, IsNumbered, MayFollow};
ghost use Rattle.published.specs.History.{head_of};

use crate::numbered::Numbered;
use logbook::{Gain, Offer, Opening, Plain, Play, Rule, Seen, Start, Word};
use std::alloc::AllocError;
use std::marker::Model;

/// What holds of the book and its one word.
pub struct Law;

impl<E: Numbered + Drop> Rule<E, u64> for Law {
    ghost use Rattle.std.specs.Prelude.{[]};
    ghost use base.Fml.{ftrue};
    ghost use Rattle.published.specs.History.{IsKept};

    ghost holds = { λ cells log. IsKept E.number_of cells log };

    ghost first = { [] };

    ghost hinted = { λ n log. Unit {0} };

    ghost shows = { λ log. [] };

    ghost keeps = { λ names log. ftrue };

    ghost moves = { λ ask before after answer. Unit {0} };
}

/// Nothing but the entry is handed over with a step.
pub struct Nothing;

impl<E> Gain<E, u64> for Nothing {
    ghost use base.Fml.{ftrue};

    ghost after = { λ names about answer. ftrue };
}

/// A history opens with one entry.
struct First;

impl<E> Opening<E, E> for First {
    ghost use Rattle.std.specs.Prelude.{[], ◌∷◌};

    ghost log = { λ count entry. entry ∷ [] };
}

/// The step that adds an entry.
struct Add;

impl<E> Play<E, u64> for Add {
    ghost use Rattle.published.specs.History.{Adds};

    ghost then = { Adds };
}

impl<E> Plain<E, E, u64> for Add {
    ghost use Rattle.std.specs.Prelude.{None};

    ghost ask = { λ entry. entry };

    ghost state = { λ entry. None };
}

/// How many entries stand behind the opening one. Only who has it can add to the book.
pub type Count<E> = Word<E, u64, Law>;

/// A beginning of the history, and the entry that it ends with: what a reader, a receipt, the publishing end and the value that is shown each have.
#[derive(Drop)]
pub struct Front<E: Numbered + Drop> {
    entry: E,
    seen: Seen<E, u64, Law>,
}

impl<E: Numbered + Drop> Model for Front<E> {
    ghost use Rattle.std.specs.Prelude.{◌≡◌, Some};
    ghost use Rattle.published.specs.Commits.{latest, IsNumbered};
    ghost use Rattle.published.specs.History.{Past};

    ghost Value = { Past E };

    ghost view = { λ f. record { book = f.seen.book; list = f.seen.log; last = f.entry } };

    ghost invariant = { λ f. (latest f.seen.log ≡ Some f.entry) × IsNumbered E.number_of f.seen.log };
}

impl<E: Numbered + Drop> Front<E> {
    /// A new history, which opens with this entry.
    pub fn open(entry: E) -> (Front<E>, Count<E>)
        ensures list { (result.0.list ≡ entry ∷ []) × (result.0.last ≡ entry) }
        ensures word { result.1 ≡ head_of result.0.book }
    {
        let (seen, mut pens) = Seen::open_row::<E, First>(&entry, Start::alone(), 1);
        let mut pen = pens.take();
        let word = Word::tracked(0, &mut pen);
        (Front { entry, seen }, word)
    }

    /// The entry that it ends with.
    pub fn entry(&self) -> &E
        ensures last { result.now ≡ self.now.last }
        ensures list { (latest self.now.list ≡ Some self.now.last) × IsNumbered E.number_of self.now.list }
    {
        &self.entry
    }

    /// A copy that has this copy of the entry.
    pub fn twin(&self, entry: E) -> Front<E>
        requires { entry ≡ self.now.last }
        ensures { result ≡ self.now }
    {
        Front {
            entry,
            seen: self.seen.again(),
        }
    }

    /// A copy, an error where there is no memory for it.
    pub fn again(&self) -> Result<Front<E>, AllocError>
        ensures { IfOk result (λ f. f ≡ self.now) }
    {
        Ok(Front {
            entry: self.entry.again()?,
            seen: self.seen.again(),
        })
    }

    /// Becomes the longer of the two, which goes on from both. Of two beginnings of one history the one with the greater number is the longer.
    pub fn advance(&mut self, other: Front<E>)
        requires { other.book ≡ self.old.book }
        ensures book { self.new.book ≡ self.old.book }
        ensures mine { IsPrefix self.old.list self.new.list }
        ensures theirs { IsPrefix other.list self.new.list }
        ensures one { (self.new ≡ self.old) ⊎ (self.new ≡ other) }
    {
        let mut both = self.seen.again();
        both.learn(&other.seen);
        if self.is_before(&other) {
            *self = other;
        }
    }

    /// Whether the other one ends with a later entry.
    fn is_before(&self, other: &Front<E>) -> bool
        ensures before { result ≡ true → E.number_of self.now.last < E.number_of other.now.last }
        ensures not { result ≡ false → E.number_of other.now.last ≤ E.number_of self.now.last }
    {
        self.entry.number() < other.entry.number()
    }

    /// Adds an entry behind all that was seen. Where the history is longer than that, it adds nothing.
    pub fn add(&self, count: &Count<E>, added: u64, next: E) -> Option<Front<E>>
        requires word { count.now ≡ head_of self.now.book }
        requires added { (added + 1 ≡ length self.now.list) × (added + 1 < 2 ^ 64) }
        requires follows { MayFollow E.number_of self.now.list next }
        ensures { IfSome result (λ f. (f.book ≡ self.now.book) × (f.list ≡ self.now.list ++ next ∷ []) × (f.last ≡ next)) }
    {
        let mut seen = self.seen.again();
        let mut offer: Offer<E, u64, Law, Nothing> = seen.plain::<Nothing, E, Add>(&next);
        let mut pen = seen.no_pen();
        let found = count.compare_exchange::<Add, Nothing>(
            added,
            added + 1,
            &mut seen,
            &mut offer,
            &mut pen,
        );
        if found == added {
            Some(Front { entry: next, seen })
        } else {
            None
        }
    }
}
