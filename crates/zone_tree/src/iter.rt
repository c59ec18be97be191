// The zones of a server, one after another.
ghost use Rattle.std.specs.Prelude.{◌≡◌};

use crate::zone_key::ZoneKey;
use std::collections::btree_map::Values;
use std::marker::Model;

/// Zones by class ascending, those of a class in canonical order of their apexes (RFC 4034, 6.1).
#[derive(Drop)]
pub struct ZoneSetIter<'a, Z> {
    zones: Values<'a, ZoneKey, Z>,
}

impl<'a, Z> Model for ZoneSetIter<'a, Z> {
    ghost use Rattle.std.specs.Prelude.{List};

    ghost Value = { List Z };

    ghost view = { λ i. i.zones };
}

impl<'a, Z> ZoneSetIter<'a, Z> {
    /// The zones of a map's entries.
    pub(crate) fn of(zones: Values<'a, ZoneKey, Z>) -> ZoneSetIter<'a, Z>
        ensures { result ≡ zones.entry }
    {
        ZoneSetIter { zones }
    }
}

impl<'a, Z> Iterator for ZoneSetIter<'a, Z> {
    type Item = &'a Z;

    ghost use Rattle.std.specs.Iterator.{item_count};
    ghost use Rattle.std.specs.Map.Iter.{TakesFirst, deref};

    ghost next_gives = { TakesFirst deref };

    ghost remaining = { item_count (λ i. i) };

    fn next(&mut self) -> Option<&'a Z> {
        self.zones.next()
    }
}
