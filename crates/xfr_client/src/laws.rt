// Laws of calls in turn, each the contract of a function with an empty body.
ghost use Rattle.xfr_client.specs.CallsInTurn.{TellsAll, NamesUpdates};
ghost use Rattle.xfr_client.specs.CallsInTurn.{CommitsWhatIsSpelt, CommitsUpToRefusal, PublishesWhatIsRead, TellsOfPublished};
ghost use Rattle.xfr_client.specs.CallsInTurn.{EditsLead, DeletesFit, AddsFit, UpdatesLead, UpdatesFit};

/// The updates that an iterator gives up to its end are all that its message says.
pub fn tells_all()
    ensures { TellsAll }
{}

/// The updates of messages taken in turn are those that the grammar names of the records read so far.
pub fn names_updates()
    ensures { NamesUpdates }
{}

/// The updates of records, applied in turn, publish what the records spell, up to the first that is refused.
pub fn commits_what_is_spelt()
    ensures applied { CommitsWhatIsSpelt }
    ensures refused { CommitsUpToRefusal }
{}

/// The updates of messages taken in turn, applied in turn, publish what the records read of them spell.
pub fn publishes_what_is_read()
    ensures { PublishesWhatIsRead }
{}

/// The difference that an update tells is that of the version published before and the one that it publishes (RFC 1995, 4).
pub fn tells_of_published()
    ensures { TellsOfPublished }
{}

/// The difference of two versions, applied by the edits of a session, makes the same as the second, and fits.
pub fn edits_lead()
    ensures lead { EditsLead }
    ensures deletes { DeletesFit }
    ensures adds { AddsFit }
{}

/// So it does by the updates of one batch and an end, where each version has one SOA record.
pub fn updates_lead()
    ensures lead { UpdatesLead }
    ensures fit { UpdatesFit }
{}
