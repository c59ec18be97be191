// The key of both sides.
ghost use Rattle.std.specs.Prelude.{◌≡◌, IsTrue};
ghost use Rattle.dns_name.specs.Names.{is_name, labels_in, name_wire};
ghost use Rattle.zone_generated.specs.Generated as generated;

use dns_name::{KeyName, Labelled, NameRef};
use tsig_keys::{Algorithm, Key};

/// The name that the octets spell, in place.
fn name_in_place(octets: &[u8]) -> KeyName
    requires name { IsTrue (is_name (labels_in octets.now)) }
    requires spelled { name_wire (labels_in octets.now) ≡ octets.now }
    ensures { result ≡ labels_in octets.now }
{
    match NameRef::from_octets(octets) {
        Ok(name) => name.to_key_name(),
        Err(_) => unreachable!(),
    }
}

/// The key with which the zone is sent: `key.`, of HMAC-SHA256 and the secret of the octets 0, 1 and 2, whose MACs are sent and wanted whole.
pub fn generated_key() -> Key
    ensures { result ≡ generated.key }
{
    let name = name_in_place(b"\x03key\0");
    match Key::new(Algorithm::Sha256, &[0, 1, 2], name, None, None) {
        Ok(key) => key,
        Err(_) => unreachable!(),
    }
}
