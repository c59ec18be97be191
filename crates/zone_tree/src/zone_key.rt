// Where a zone stands among the zones of a server.
ghost use Rattle.std.specs.Prelude.{◌≡◌};
ghost use Rattle.dns_name.specs.Names.{fold};

use dns_name::{KeyName, Labelled};
use dns_numbers::Class;

/// A class, and an apex in lower case.
pub(crate) type ZoneKey = (Class, KeyName);

/// Where the zone of a class and apex stands.
pub(crate) fn zone_key<N: Labelled>(class: Class, apex_name: &N) -> ZoneKey
    ensures { result ≡ (class, fold (N.labels apex_name.now)) }
{
    (class, apex_name.to_canonical())
}
