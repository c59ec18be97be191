// The names that exist in a version.
ghost use Rattle.std.specs.Prelude.{◌≡◌};
ghost use Rattle.zone_model.specs.Version.{IsValid, exists};

use dns_name::{NameRef, ToName};
use name_keys::NameKey;
use zone_versions::ZoneVersion;

/// Whether a name is the apex, or an owner is at or below it (RFC 4592, 2.2.2).
pub fn exists(version: &ZoneVersion, name: &NameRef<'_>) -> bool
    requires { IsValid version.now }
    ensures { result ≡ exists version.now name.now }
{
    if name.name_eq(version.apex()) {
        return true;
    }
    match version.first_from(name) {
        Some(found) => found.owner().is_under(&NameKey::of(name)),
        None => false,
    }
}
