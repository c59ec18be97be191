//! A zone of which one version is kept.
ghost use Rattle.std.specs.Prelude.{◌≡◌, IfOk};

use std::alloc::AllocError;
use std::marker::Model;
use std::sync::Wait;
use xfr_providers::StoredZone;
use zone_reads::ReadZone;

/// A zone of which one version is kept, which is current for good. Contracts see the version.
#[derive(Drop)]
pub struct OneVersion {
    handle: ReadZone,
}

impl Model for OneVersion {
    ghost use Rattle.zone_model.specs.Version.{Version};

    ghost Value = { Version };

    ghost view = { λ z. z.handle.version };
}

impl OneVersion {
    /// The zone of this version.
    pub fn new(handle: ReadZone) -> OneVersion
        ensures { result ≡ handle.version }
    {
        OneVersion { handle }
    }
}

impl StoredZone for OneVersion {
    ghost current = { λ z. z };

    fn read_current<R: Wait>(&self, _rt: &R) -> Result<ReadZone, AllocError> {
        self.handle.clone()
    }
}
