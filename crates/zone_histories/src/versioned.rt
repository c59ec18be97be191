// Values by version.
ghost use Rattle.std.specs.Prelude.{◌≡◌, ◌≤◌, ◌-◌, ◌==◌, not, is_some, [], true, false, nat_le, length, take, find, reverse, IsTrue, OnOk, OnErr, option_copied};
ghost use Rattle.zone_histories.specs.Histories.{next_version, ascends, is_upto, value_at, before, written, removed};

use std::alloc::{AllocError, Global};
use std::marker::Model;

/// The number of a version of a zone: later versions have greater numbers.
#[derive(Clone, Copy, Debug, PartialEq, Eq, PartialOrd, Ord, Hash)]
pub struct Version {
    number: u64,
}

impl Model for Version {
    ghost use Rattle.std.specs.Prelude.{ℕ, ◌<◌, ◌^◌};

    ghost Value = { ℕ };

    ghost view = { λ v. v.number };

    ghost invariant = { λ v. v.number < 2 ^ 64 };

    ghost inverse = { λ n. record { number = n } };
}

impl Version {
    /// The version of this number.
    pub fn from_int(number: u64) -> Version
        ensures { result ≡ number }
    {
        Version { number }
    }

    /// The number.
    pub fn into_int(self) -> u64
        ensures { result ≡ self }
    {
        self.number
    }

    /// The version after this one, none after the greatest.
    pub fn next(self) -> Option<Version>
        ensures { result ≡ next_version self }
    {
        if self.number == u64::MAX {
            return None;
        }
        Some(Version {
            number: self.number + 1,
        })
    }
}

impl Default for Version {
    ghost use Rattle.std.specs.Prelude.{◌≡◌};

    ghost is_default = { λ v. v ≡ 0 };

    /// The first version.
    fn default() -> Version {
        Version { number: 0 }
    }
}

/// A value at each version of a zone: what was written at a version holds until the next write. Writes are of no earlier version than the
/// ones before, so that readers of earlier versions keep their values.
#[derive(Drop)]
pub struct Versioned<T: Drop> {
    data: Vec<(Version, Option<T>)>,
}

impl<T: Drop> Model for Versioned<T> {
    ghost use Rattle.std.specs.Prelude.{IsTrue};
    ghost use Rattle.zone_histories.specs.Histories.{History, ascends};

    ghost Value = { History T };

    ghost view = { λ v. v.data.items };

    ghost invariant = { λ v. IsTrue (ascends v.data.items) };
}

impl<T: Drop> Versioned<T> {
    /// No value at any version.
    pub fn new(alloc: Global) -> Versioned<T>
        ensures { result ≡ [] }
    {
        Versioned {
            data: Vec::new(alloc),
        }
    }

    /// The value at a version.
    pub fn get(&self, version: Version) -> Option<&T>
        ensures { option_copied result ≡ value_at self.now version }
    {
        match last_upto(&self.data, version) {
            Some(entry) => entry.1.as_ref(),
            None => None,
        }
    }

    /// Whether there is a value at a version.
    fn has_value(&self, version: Version) -> bool
        ensures { result ≡ is_some (value_at self.now version) }
    {
        self.get(version).is_some()
    }

    /// Whether a version may be written: no later one was.
    pub fn may_write(&self, version: Version) -> bool
        ensures { result ≡ is_upto self.now version }
    {
        is_upto(&self.data, version)
    }

    /// Writes the value at a version, in place of what was written at that version before.
    pub fn update(&mut self, version: Version, value: T) -> Result<(), AllocError>
        requires { IsTrue (is_upto self.old version) }
        ensures ok { OnOk result (self.new ≡ written self.old version (Some value)) }
        ensures err { OnErr result (self.new ≡ self.old) }
    {
        write(&mut self.data, version, Some(value))
    }

    /// Takes back what was written at a version.
    pub fn rollback(&mut self, version: Version)
        requires { IsTrue (is_upto self.old version) }
        ensures { self.new ≡ before self.old version }
    {
        take_back(&mut self.data, version);
    }

    /// Takes the value away from a version on.
    pub fn remove(&mut self, version: Version) -> Result<(), AllocError>
        requires { IsTrue (is_upto self.old version) }
        ensures ok { OnOk result (self.new ≡ removed self.old version) }
        ensures err { OnErr result (self.new ≡ self.old) }
    {
        if !self.has_value(version) {
            return Ok(());
        }
        if !has_before(&self.data, version) {
            self.data.clear();
            return Ok(());
        }
        write(&mut self.data, version, None)
    }
}

/// The last write at or before a version.
fn last_upto<T: Drop>(
    writes: &[(Version, Option<T>)],
    version: Version,
) -> Option<&(Version, Option<T>)>
    ensures { option_copied result ≡ find (λ e. nat_le e.0 version) (reverse writes.now) }
{
    writes.iter().rev().find(|entry| entry.0 <= version)
}

/// Whether no write is of a later version than this one.
fn is_upto<T: Drop>(writes: &[(Version, Option<T>)], version: Version) -> bool
    requires { IsTrue (ascends writes.now) }
    ensures { result ≡ is_upto writes.now version }
{
    match writes.last() {
        Some(entry) => entry.0 <= version,
        None => true,
    }
}

/// Whether some write is of an earlier version than this one.
fn has_before<T: Drop>(writes: &[(Version, Option<T>)], version: Version) -> bool
    requires { IsTrue (ascends writes.now) }
    ensures { result ≡ not (length (before writes.now version) == 0) }
{
    match writes.first() {
        Some(entry) => entry.0 < version,
        None => false,
    }
}

/// Whether the newest write is of this version.
fn is_newest<T: Drop>(writes: &[(Version, Option<T>)], version: Version) -> bool
    requires ordered { IsTrue (ascends writes.now) }
    requires upto { IsTrue (is_upto writes.now version) }
    ensures found { result ≡ true → (1 ≤ length writes.now) × (before writes.now version ≡ take (length writes.now - 1) writes.now) }
    ensures none { result ≡ false → before writes.now version ≡ writes.now }
{
    match writes.last() {
        Some(entry) => entry.0 == version,
        None => false,
    }
}

/// Writes at a version, in place of the newest write where that is of the same version.
fn write<T: Drop>(
    writes: &mut Vec<(Version, Option<T>)>,
    version: Version,
    value: Option<T>,
) -> Result<(), AllocError>
    requires ordered { IsTrue (ascends writes.old.items) }
    requires upto { IsTrue (is_upto writes.old.items version) }
    ensures ok { OnOk result (writes.new.items ≡ written writes.old.items version value) }
    ensures err { OnErr result (writes.new.items ≡ writes.old.items) }
{
    if is_newest(writes, version) {
        let last = writes.len() - 1;
        writes[last] = (version, value);
        return Ok(());
    }
    writes.push((version, value))?;
    Ok(())
}

/// Takes back what was written at a version.
fn take_back<T: Drop>(writes: &mut Vec<(Version, Option<T>)>, version: Version)
    requires ordered { IsTrue (ascends writes.old.items) }
    requires upto { IsTrue (is_upto writes.old.items version) }
    ensures { writes.new.items ≡ before writes.old.items version }
{
    if is_newest(writes, version) {
        let _ = writes.pop();
    }
}
