// The keys at which two versions may differ, where that isn't any key.
ghost use Rattle.std.specs.Prelude.{◌≡◌, [], false, Some, None, IfOk, OnOk, OnErr, if◌then◌else◌};
ghost use Rattle.std.specs.List.{list_any};
ghost use Rattle.std.specs.Map.{keys_of};
ghost use Rattle.zone_model.specs.Version.{Sets, IsValid};
ghost use Rattle.zone_model.specs.Difference.{difference, diffable};
ghost use Rattle.zone_versions.specs.Strays.{is_stray_at};
ghost use Rattle.zone_changes.specs.Drafts.{BeganAs};
ghost use Rattle.zone_changes.specs.Touched.{noted_in, noted_all_in, keys_below, stray_keys, CoversIn};

use crate::changes::{difference, difference_anywhere};
use crate::touched::TouchedKeys;
use dns_name::KeyName;
use std::alloc::{AllocError, Global};
use std::marker::Model;
use zone_diffs::InMemoryZoneDiff;
use zone_versions::{SetKey, ZoneVersion};

/// The keys that edits touched, until every RRset goes: from then on none are kept, and the versions before and after may differ at any key.
/// So a whole zone that comes in place of the old one has no keys noted.
#[derive(Drop)]
pub(crate) struct TrackedKeys {
    kept: Option<TouchedKeys>,
}

impl Model for TrackedKeys {
    ghost use Rattle.std.specs.Prelude.{List, Option};
    ghost use Rattle.zone_model.specs.Version.{Key};

    ghost Value = { Option (List Key) };

    ghost view = { λ t. t.kept };
}

impl TrackedKeys {
    /// No keys were touched.
    pub(crate) fn new(alloc: Global) -> TrackedKeys
        ensures { result ≡ Some [] }
    {
        TrackedKeys {
            kept: Some(TouchedKeys::new(alloc)),
        }
    }

    /// Notes a key, where keys are kept.
    pub(crate) fn note(&mut self, key: SetKey) -> Result<(), AllocError>
        ensures ok { OnOk result (self.new ≡ noted_in self.old key) }
        ensures err { OnErr result (self.new ≡ self.old) }
    {
        match &mut self.kept {
            Some(keys) => keys.note(key),
            None => Ok(()),
        }
    }

    /// Notes a copy of a key, which is made where keys are kept.
    pub(crate) fn note_copy(&mut self, key: &SetKey) -> Result<(), AllocError>
        ensures ok { OnOk result (self.new ≡ noted_in self.old key.now) }
        ensures err { OnErr result (self.new ≡ self.old) }
    {
        match &mut self.kept {
            Some(keys) => keys.note_if(key, true),
            None => Ok(()),
        }
    }

    /// Notes the keys of a version's RRsets at a name and below it, where keys are kept. Without memory for that some of them may be noted.
    pub(crate) fn note_below(
        &mut self,
        version: &ZoneVersion,
        name: &KeyName,
    ) -> Result<(), AllocError>
        ensures ok { OnOk result (self.new ≡ noted_all_in self.old (keys_below version.now name.now)) }
        ensures err { OnErr result ((a b : Sets) → CoversIn self.old a b → CoversIn self.new a b) }
    {
        match &mut self.kept {
            Some(keys) => keys.note_below(version, name),
            None => Ok(()),
        }
    }

    /// Notes the keys of the RRsets that a commit of the version leaves out, where keys are kept (RFC 4035, 2.4). Without memory for that some of
    /// them may be noted.
    pub(crate) fn note_strays(&mut self, version: &ZoneVersion) -> Result<(), AllocError>
        ensures ok { OnOk result (self.new ≡ noted_all_in self.old (stray_keys version.now)) }
        ensures err { OnErr result ((a b : Sets) → CoversIn self.old a b → CoversIn self.new a b) }
    {
        match &mut self.kept {
            Some(keys) => keys.note_strays(version),
            None => Ok(()),
        }
    }

    /// Whether a commit may leave an RRset of a version out that began as a published one. Where keys are kept, only their owners are looked at.
    pub(crate) fn has_stray(&self, base: &ZoneVersion, version: &ZoneVersion) -> bool
        requires covered { CoversIn self.now base.now.sets version.now.sets }
        requires began { BeganAs base.now version.now }
        ensures none { result ≡ false → list_any (is_stray_at version.now) (keys_of version.now.sets) ≡ false }
        ensures valid { result ≡ false → IsValid version.now }
    {
        match &self.kept {
            Some(keys) => {
                // For the proof: what a version keeps while it is edited.
                version.soundness();
                keys.has_stray(version)
            }
            None => version.has_stray(),
        }
    }

    /// Keeps no keys from now on: the versions may differ at any.
    pub(crate) fn let_go(&mut self)
        ensures { self.new ≡ None }
    {
        self.kept = None;
    }

    /// The difference from one version to another, looked for at the kept keys, or else at all.
    pub(crate) fn difference(
        &self,
        alloc: Global,
        old: &ZoneVersion,
        new: &ZoneVersion,
    ) -> Result<Option<InMemoryZoneDiff>, AllocError>
        requires { CoversIn self.now old.now.sets new.now.sets }
        ensures { IfOk result (λ d. d ≡ (if diffable old.now new.now then Some (difference old.now new.now) else None)) }
    {
        match &self.kept {
            Some(keys) => difference(alloc, old, new, keys),
            None => difference_anywhere(alloc, old, new),
        }
    }
}

impl Clone for TrackedKeys {
    ghost is_clone = { λ t copy. copy ≡ t };

    fn clone(&self) -> Result<TrackedKeys, AllocError> {
        let kept = match &self.kept {
            Some(keys) => Some(keys.clone()?),
            None => None,
        };
        Ok(TrackedKeys { kept })
    }
}
