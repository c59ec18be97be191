// Laws of what a provider offers, each the contract of a function with an empty body.
ghost use Rattle.xfr_providers.specs.Offers.{CommitsMayBePushed, HistoryGrants, HistoryIsOffered};

/// A provider with a history offers what it keeps to one who signed with a key that it grants.
pub fn granted_keys_are_offered()
    ensures { HistoryGrants }
{}

/// What a provider with a history offers has a history too, which ends in the version offered: no difference is of another version.
pub fn histories_are_offered()
    ensures { HistoryIsOffered }
{}

/// What a commit tells may be pushed, with the version that it publishes, to a provider that keeps the version before it.
pub fn commits_may_be_pushed()
    ensures { CommitsMayBePushed }
{}
