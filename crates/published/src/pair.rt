//! The value that is shown to readers, in two copies, and the steps on it: look, publish, tell.
ghost use Rattle.std.specs.Prelude.{◌≡◌, ◌<◌, Some, IfOk, IfSome, MatchOption};
ghost use Rattle.left_right.specs.Sides.{view};
ghost use Rattle.published.specs.History.{Past};
ghost use Rattle.published.specs.Pair.{GoesOn, GoesOnFrom};

use crate::book::Front;
use crate::numbered::Numbered;
use atomic_table::{Join, Split};
use crossbeam_utils::rule::{Outcome, Protocol};
use left_right::Absorb;
use left_right::reader::Reader;
use left_right::writer::Writer;
use std::alloc::{AllocError, Global};
use std::sync::Wait;

/// Nothing is logged or absorbed: each copy is replaced whole.
impl<E: Numbered + Drop> Absorb<()> for Front<E> {
    type State = ();

    ghost state = { λ front. tt };

    ghost applied = { λ state operation. tt };

    ghost never_fails = { Unit {0} };

    fn absorb_first(&mut self, _operation: &(), _other: &Front<E>) -> Result<(), AllocError> {
        Ok(())
    }
}

/// What is shown goes on from all that each thread saw of it.
pub struct OneHistory;

impl<E: Numbered + Drop> Protocol<Front<E>, Option<Front<E>>> for OneHistory {
    ghost use Rattle.std.specs.Prelude.{None};
    ghost use Rattle.published.specs.Pair.{Keeps};

    ghost holds = { Keeps };

    ghost first = { None };
}

/// A look at what is shown, or a change of it.
struct Looks;

impl<E: Numbered + Drop> Outcome<Front<E>, Option<Front<E>>> for Looks {
    ghost use Rattle.published.specs.Pair.{Sees};

    ghost then = { Sees };
}

/// What the publishing end tells a reader: all that it knows.
struct Notes;

impl<E: Numbered + Drop> Split<Option<Front<E>>> for Notes {
    ghost left = { λ v. v };

    ghost right = { λ v. v };
}

impl<E: Numbered + Drop> Join<Option<Front<E>>> for Notes {
    ghost use Rattle.std.specs.Prelude.{None};

    ghost both = { λ v w. w };

    ghost spent = { None };
}

pub type PairReader<E> = Reader<Front<E>, Option<Front<E>>, OneHistory>;

pub type PairWriter<E> = Writer<Front<E>, (), Option<Front<E>>, OneHistory>;

/// What is shown now, where its number is above `held`, and else nothing is copied: it goes on from all that this reader saw. `None` where publishing has
/// ended.
pub fn look<E: Numbered + Drop>(
    reader: PairReader<E>,
    held: u64,
) -> (PairReader<E>, Option<Option<Result<Front<E>, AllocError>>>)
    ensures { MatchOption result.1
        (view result.0.place ≡ view reader.place)
        (λ found. (x : Past E) × GoesOnFrom (view reader.place) x × (view result.0.place ≡ Some x) × IfSome found (λ f. IfOk f (λ y. y ≡ x))) }
{
    match reader.enter_as::<Looks>() {
        Ok(reading) => {
            let found = newer(reading.get(), held);
            (reading.leave(), Some(found))
        }
        Err(reader) => (reader, None),
    }
}

/// A copy, where its number is above `held`.
fn newer<E: Numbered + Drop>(shown: &Front<E>, held: u64) -> Option<Result<Front<E>, AllocError>>
    ensures { IfSome result (λ f. IfOk f (λ y. y ≡ shown.now)) }
{
    if shown.entry().number() > held {
        Some(shown.again())
    } else {
        None
    }
}

/// Shows what goes on from what is shown.
pub fn publish<E: Numbered + Drop, R: Wait>(
    rt: &R,
    writer: PairWriter<E>,
    next: Front<E>,
) -> PairWriter<E>
where
    Front<E>: Absorb<(), State = ()>,
    requires { GoesOn writer.desk.shown.value next }
    ensures { (result.desk.shown.value ≡ next) × (view result.desk.place ≡ Some next) }
{
    let mut writer = writer;
    let (open, mut spare) = writer.desk.open(rt);
    *spare = next;
    writer.desk = open.show_as::<Looks>(spare);
    writer
}

/// A reader that knows what the publishing end knows.
pub fn informed<E: Numbered + Drop>(writer: &mut PairWriter<E>) -> Result<PairReader<E>, AllocError>
where
    Front<E>: Absorb<(), State = ()>,
    ensures told { IfOk result (λ r. view r.place ≡ view writer.old.desk.place) }
    ensures kept { (writer.new.desk.shown ≡ writer.old.desk.shown) × (view writer.new.desk.place ≡ view writer.old.desk.place) }
{
    let mut reader = writer.factory().reader()?;
    let note = writer.tell::<Notes>();
    reader.learn::<Notes>(note);
    Ok(reader)
}

/// A publishing end that has shown this, and knows its own history by that step.
pub fn open_pair<E: Numbered + Drop, R: Wait>(
    alloc: Global,
    rt: &R,
    first: Front<E>,
    second: Front<E>,
    readers: usize,
) -> Result<PairWriter<E>, AllocError>
where
    Front<E>: Absorb<(), State = ()>,
    requires same { second ≡ first }
    requires readers { (0 < readers) × (readers < 4096) }
    ensures { IfOk result (λ w. (w.desk.shown.value ≡ first) × (view w.desk.place ≡ Some first)) }
{
    let third = second.again()?;
    let writer = PairWriter::<E>::new(alloc, first, second, readers)?;
    Ok(publish(rt, writer, third))
}

/// A publishing end that shows this, and has taken no step yet.
pub fn untold_pair<E: Numbered + Drop>(
    alloc: Global,
    first: Front<E>,
    second: Front<E>,
    readers: usize,
) -> Result<PairWriter<E>, AllocError>
where
    Front<E>: Absorb<(), State = ()>,
    requires same { second ≡ first }
    requires readers { (0 < readers) × (readers < 4096) }
    ensures { IfOk result (λ w. w.desk.shown.value ≡ first) }
{
    PairWriter::<E>::new(alloc, first, second, readers)
}

/// A reader that isn't told which history it reads.
pub fn untold<E: Numbered + Drop>(writer: &PairWriter<E>) -> Result<PairReader<E>, AllocError>
where
    Front<E>: Absorb<(), State = ()>,
{
    writer.factory().reader()
}
