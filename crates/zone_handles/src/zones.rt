// Zones, whatever keeps them.
ghost use Rattle.std.specs.Prelude.{◌≡◌};
ghost use Rattle.zone_reads.specs.Session.{new_session};

use crate::stores::ReadableZone;
use dns_name::StoredName;
use dns_numbers::Class;
use std::alloc::{AllocError, Global};
use std::marker::Model;
use std::sync::Wait;
use zone_reads::ReadZone;
use zone_sessions::{WriteZone, ZoneApex};
use zone_tree::{AtApex, Close};

/// What keeps a zone: it knows its class and apex, and gives read handles.
pub trait ZoneStore {
    ghost use Rattle.std.specs.Prelude.{◌≡◌, ℕ, IfOk};
    ghost use Rattle.dns_name.specs.Names.{Name};
    ghost use Rattle.zone_model.specs.Commits.{Commit};

    /// The handles that it gives.
    type Read: ReadableZone;

    /// The versions that a handle may be of, with their numbers.
    ghost MayGive: { Self → Commit → Type 0 };

    /// The class.
    ghost class_of: { Self → ℕ };

    /// The name of the apex, as it was given.
    ghost apex_of: { Self → Name };

    /// The class.
    fn class(&self) -> Class
        ensures is { result ≡ class_of self.now }
        ensures given { (c : Commit) → MayGive self.now c → c.version.class ≡ result };

    /// The name of the apex, as it was given.
    fn apex_name(&self) -> &StoredName
        ensures is { result.now ≡ apex_of self.now }
        ensures given { (c : Commit) → MayGive self.now c → c.version.apex ≡ result.now };

    /// A read handle. A store under a lock may wait for it.
    fn read<R: Wait>(&self, rt: &R) -> Result<Self::Read, AllocError>
        ensures { IfOk result (λ z. MayGive self.now (Self.Read.commit_of z)) };
}

/// A zone in memory gives its current version.
impl ZoneStore for ZoneApex {
    ghost use Rattle.std.specs.Prelude.{◌≡◌};

    type Read = ReadZone;

    ghost MayGive = { λ z c. c ≡ z };

    ghost class_of = { λ z. z.version.class };

    ghost apex_of = { λ z. z.version.apex };

    fn class(&self) -> Class {
        ZoneApex::class(self)
    }

    fn apex_name(&self) -> &StoredName {
        self.name()
    }

    fn read<R: Wait>(&self, rt: &R) -> Result<ReadZone, AllocError> {
        ZoneApex::read(self, rt)
    }
}

/// A zone, whatever keeps it.
#[derive(Drop)]
pub struct Zone<S: ZoneStore> {
    store: S,
}

impl<S: ZoneStore> Model for Zone<S> {
    ghost Value = { S };

    ghost view = { λ z. z.store };
}

impl<S: ZoneStore> Zone<S> {
    /// The zone that is kept so.
    pub fn new(store: S) -> Zone<S>
        ensures { result ≡ store }
    {
        Zone { store }
    }

    /// What keeps the zone.
    pub fn into_inner(self) -> S
        ensures { result ≡ self }
    {
        self.store
    }

    /// What keeps the zone, lent.
    pub fn store(&self) -> &S
        ensures { result.now ≡ self.now }
    {
        &self.store
    }
}

impl<S: ZoneStore> AsRef<S> for Zone<S> {
    /// What keeps the zone, as `store` lends it.
    fn as_ref(&self) -> &S
        ensures { result.now ≡ self.now }
    {
        &self.store
    }
}

impl<S: ZoneStore> ZoneStore for Zone<S> {
    type Read = S::Read;

    ghost MayGive = { S.MayGive };

    ghost class_of = { S.class_of };

    ghost apex_of = { S.apex_of };

    fn class(&self) -> Class {
        self.store.class()
    }

    fn apex_name(&self) -> &StoredName {
        self.store.apex_name()
    }

    fn read<R: Wait>(&self, rt: &R) -> Result<S::Read, AllocError> {
        self.store.read(rt)
    }
}

/// A zone stands in a tree of zones by its class and apex.
impl<S: ZoneStore> AtApex for Zone<S> {
    ghost use Rattle.std.specs.Prelude.{◌≡◌};

    ghost class_of = { S.class_of };

    ghost apex_of = { S.apex_of };

    fn class(&self) -> Class {
        self.store.class()
    }

    fn apex_name(&self) -> &StoredName {
        self.store.apex_name()
    }
}

impl Zone<ZoneApex> {
    /// A session that writes the zone's next versions. What it didn't commit is dropped with it.
    pub fn write<'z>(&'z mut self, alloc: Global) -> WriteZone<'z>
        ensures session { (result ≡ new_session result.past) × (result.past.last ≡ self.old) }
    {
        self.store.write(alloc)
    }
}

/// A zone in memory ends with its desk. It waits for readers that are within a call.
impl Close for Zone<ZoneApex> {
    fn close<R: Wait>(self, rt: &R) {
        self.store.close(rt);
    }
}
