// Laws of what a primary sends, each the contract of a function with an empty body.
ghost use Rattle.zone_model.specs.TransferLaws as laws;
ghost use Rattle.zone_model.specs.Pushes as pushes;
ghost use Rattle.zone_model.specs.Chains as chains;

/// The whole text of a valid version with one SOA record is a whole text, with an end and no rest.
pub fn whole_is_text()
    ensures { laws.WholeIsText }
{}

/// It spells one version on any base of the same apex, with the very RRsets that it was made of.
pub fn whole_spells()
    ensures { laws.WholeSpells }
{}

/// A version with an RRset besides its SOA is sent with a record between the SOA records.
pub fn sets_make_middle()
    ensures { laws.SetsMakeMiddle }
{}

/// The difference of two versions, applied to a version that is the same as the first, makes one that is the same as the second.
pub fn difference_applies()
    ensures { laws.DifferenceApplies }
{}

/// So it does as a transfer applies it: deletes, the new SOA, adds.
pub fn difference_leads()
    ensures { laws.DifferenceLeads }
{}

/// The text of a history's changes is one of the grammar, and it is what is sent where there is a difference.
pub fn changes_is_text()
    ensures { laws.ChangesIsText }
{}

/// It spells that history, on a base that is the same as the first version.
pub fn changes_spell()
    ensures { laws.ChangesSpell }
{}

/// A provider whose differences are those of a history has one after each push, of published versions if the one that is pushed is.
pub fn push_keeps()
    ensures history { pushes.PushKeeps }
    ensures published { pushes.PushPublishes }
{}

/// What it offers to one who has a serial has a history too, which begins with the version of that serial.
pub fn offer_has_history()
    ensures history { pushes.OfferHasHistory }
    ensures published { pushes.OfferPublishes }
    ensures starts { pushes.OfferStarts }
{}

/// Differences of versions in a row, joined into one, lead from the first version to the last.
pub fn condensed_leads()
    ensures { chains.CondensedLeads }
{}
