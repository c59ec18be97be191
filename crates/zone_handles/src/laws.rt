// Laws of readers, of their walks and of one writer, each the contract of a function with an empty body.
ghost use Rattle.zone_handles.specs.Steps.{OpensSo, DropAbandons, LeaveNoTrace, HandlesStay};
ghost use Rattle.zone_reads.specs.Stops.{VisitsOnce};

/// A session and its handles stand for a zone from its opening on, and after a session that was dropped.
pub fn sessions_stand()
    ensures opens { OpensSo }
    ensures dropped { DropAbandons }
{}

/// What is abandoned leaves no trace in the history.
pub fn leave_no_trace()
    ensures { LeaveNoTrace }
{}

/// A handle's version is the one at its position, and stays so.
pub fn handles_stay()
    ensures { HandlesStay }
{}

/// A walk visits each RRset of a published version once.
pub fn visits_once()
    ensures { VisitsOnce }
{}
