//! The commits of a script's primary.
ghost use Rattle.std.specs.Prelude.{◌≡◌, ◌++◌, ◌∷◌, [], OnOk, OnErr};

use std::alloc::{AllocError, Global};
use std::marker::Model;
use zone_diffs::InMemoryZoneDiff;
use zone_reads::ReadZone;

/// The versions that were committed after the opening one, in order: each as a handle, with its difference from the one before, where there is one to
/// tell (RFC 1995, 2).
#[derive(Drop)]
pub struct Commits {
    entries: Vec<(ReadZone, Option<InMemoryZoneDiff>)>,
}

impl Model for Commits {
    ghost use Rattle.std.specs.Prelude.{List, Option};
    ghost use Rattle.zone_model.specs.Commits.{Commit};
    ghost use Rattle.zone_model.specs.Difference.{Difference};

    ghost Value = { List (Commit × Option Difference) };

    ghost view = { λ c. c.entries.items };
}

impl Commits {
    /// No commits.
    pub fn new(alloc: Global) -> Commits
        ensures { result ≡ [] }
    {
        Commits {
            entries: Vec::new(alloc),
        }
    }

    /// Puts a commit after the others. Where memory runs out, the others are all there is.
    pub fn push(
        &mut self,
        handle: ReadZone,
        difference: Option<InMemoryZoneDiff>,
    ) -> Result<(), AllocError>
        ensures ok { OnOk result (self.new ≡ self.old ++ (handle, difference) ∷ []) }
        ensures memory { OnErr result (self.new ≡ self.old) }
    {
        self.entries.push((handle, difference))?;
        Ok(())
    }

    /// The commits, in order: handle and difference of each, as a provider is pushed them.
    pub fn into_entries(self) -> Vec<(ReadZone, Option<InMemoryZoneDiff>)>
        ensures { result.items ≡ self }
    {
        self.entries
    }
}
