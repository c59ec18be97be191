// Laws of reading a transfer, each the contract of a function with an empty body.
ghost use Rattle.xfr_model.specs.Machine.{RunsText, RunsOn, ReadsInTurn, SignalsRetry, RetryTellsNothing, TakesOn, ReadsNext, InterpreterSteps, FinishesAsRead, UpdatesOn};
ghost use Rattle.xfr_model.specs.Applying.{CommitsToRefusal, CommitsRead, AppliesOn, CommitsWithin, SpellsOn, FeedsRecords, DeniesEdits, NamesMode, LastNumber};
ghost use Rattle.xfr_model.specs.Messages.{BuiltIsRead};
ghost use Rattle.xfr_model.specs.Carried.{PagesAreRead};

/// The machine makes of records what the text says that they are read as.
pub fn runs_text()
    ensures { RunsText }
{}

/// The machine runs on over two lists.
pub fn runs_on()
    ensures { RunsOn }
{}

/// A reader that takes messages in turn has read what is read of the whole list.
pub fn reads_in_turn()
    ensures { ReadsInTurn }
{}

/// A retry is signalled exactly where the messages signal one, and then nothing was told.
pub fn signals_retry()
    ensures signal { SignalsRetry }
    ensures nothing { RetryTellsNothing }
{}

/// Messages may be taken in two lots.
pub fn takes_on()
    ensures { TakesOn }
{}

/// One message more: its run is what it adds to what is read, also in the words of the interpreter.
pub fn reads_next()
    ensures next { ReadsNext }
    ensures steps { InterpreterSteps }
    ensures finished { FinishesAsRead }
{}

/// A longer list says and spells on from its first part.
pub fn spells_on()
    ensures updates { UpdatesOn }
    ensures spelt { SpellsOn }
{}

/// Updates one by one, up to the first refusal, commit what is spelt, and are refused where the spelling is.
pub fn commits_to_refusal()
    ensures { CommitsToRefusal }
{}

/// So for each list of records, whether its text has ended or not.
pub fn commits_read()
    ensures read { CommitsRead }
    ensures on { AppliesOn }
{}

/// Where versions run out of numbers, what is committed is cut there, and that commit is what stops.
pub fn commits_within()
    ensures { CommitsWithin }
{}

/// Finer steps: record by record comes to the same as message by message; what is denied is an edit; a first message without a fault names the request's mode.
pub fn feeds_records()
    ensures feeds { FeedsRecords }
    ensures denied { DeniesEdits }
    ensures mode { NamesMode }
{}

/// There is no number left for an update exactly where it commits and the version before has the greatest.
pub fn last_number()
    ensures { LastNumber }
{}

/// The octets of a built message say to a transfer what it was built of.
pub fn built_is_read()
    ensures { BuiltIsRead }
{}

/// Messages that carry the pages of a text are read as it, to its end and without a fault.
pub fn pages_are_read()
    ensures { PagesAreRead }
{}
