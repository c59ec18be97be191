// Laws of a transfer, each the contract of a function with an empty body.
ghost use Rattle.xfr_course.specs.Client.{ClientMeets, MetDecides, UnmetStops, CourseOn, BetweenMessages, UpdatesInTurn, PartIsMade};
ghost use Rattle.xfr_course.specs.Granting as granting;
ghost use Rattle.xfr_course.specs.Joining.{SignedAreTheCourse};
ghost use Rattle.xfr_course.specs.Success.{GrantedSucceeds};
ghost use Rattle.xfr_course.specs.Honest.{HonestSucceeds};

/// A client that takes checked messages in turn commits the versions made, and ends with the outcome.
pub fn client_meets()
    ensures { ClientMeets }
{}

/// An outcome that was met stays, and where none is met the course's outcome is what came in place of a next message.
pub fn met_decides()
    ensures met { MetDecides }
    ensures unmet { UnmetStops }
    ensures on { CourseOn }
{}

/// Between messages a client that has met nothing stands at the start or in a text, so that a next message isn't one after the end;
/// and none of that message's updates comes out of turn.
pub fn updates_come_in_turn()
    ensures between { BetweenMessages }
    ensures turn { UpdatesInTurn }
{}

/// A client that gives up anywhere has committed a first part of the versions made.
pub fn part_is_made()
    ensures { PartIsMade }
{}

/// Under the premises of success, and where each version of the history may be published, what is sent leads to the version offered.
pub fn granting_spells()
    ensures { granting.GrantingSpells }
{}

/// Built answers, signed in sequence and handed as they were sent, are a course that says what they were built of.
pub fn signed_are_the_course()
    ensures { SignedAreTheCourse }
{}

/// What a granting primary sends, carried by signed messages, brings a secondary that fits it up to date.
pub fn granted_succeeds()
    ensures { GrantedSucceeds }
{}

/// So it is from octets on: built answers that carry it, signed in sequence and handed as they were sent.
pub fn honest_succeeds()
    ensures { HonestSucceeds }
{}
