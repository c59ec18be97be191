// Laws of a transfer's text, each the contract of a function with an empty body.
ghost use Rattle.zone_model.specs.TransferText.{ReadsBack, ReadsText, ReadsOnly};
ghost use Rattle.zone_model.specs.Updates as updates;

/// A list is the records of the text that it is read as.
pub fn reads_back()
    ensures { ReadsBack }
{}

/// What a list is read as is a text of the grammar.
pub fn reads_text()
    ensures { ReadsText }
{}

/// A text of the grammar is what its records are read as, so no list is two texts.
pub fn reads_only()
    ensures { ReadsOnly }
{}

/// The updates of a text commit the versions that it spells.
pub fn commits_spelling()
    ensures { updates.CommitsSpelling }
{}
