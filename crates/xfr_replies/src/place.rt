// A place in the text of a transfer.
ghost use Rattle.std.specs.Prelude.{◌≡◌, ◌<◌, ◌^◌, ◌+◌, drop, None};
ghost use Rattle.xfr_replies.specs.Sides.{sides_from, sides_of};

use dns_name::KeyName;
use dns_numbers::Rtype;
use zone_values::SharedRrset;

/// One side of a difference: of which one, counted from 0, and whether it is what that adds.
#[derive(Clone, Copy, Drop)]
pub(crate) struct Side {
    pub(crate) number: usize,
    pub(crate) adds: bool,
}

impl Side {
    /// What the first difference removes.
    pub(crate) fn first() -> Side
        ensures { (ds : _) → sides_from ds result ≡ sides_of ds }
    {
        Side {
            number: 0,
            adds: false,
        }
    }

    /// The side that is told next.
    pub(crate) fn next(&self) -> Side
        requires { self.now.number + 1 < 2 ^ 64 }
        ensures { (ds : _) → sides_from ds result ≡ drop 1 (sides_from ds self.now) }
    {
        if self.adds {
            Side {
                number: self.number + 1,
                adds: false,
            }
        } else {
            Side {
                number: self.number,
                adds: true,
            }
        }
    }
}

/// A part of the text. A side of a difference has two: its SOA records, and all others.
#[derive(Clone, Copy, Drop)]
pub(crate) enum Part {
    /// The zone's SOA record that stands before the whole zone.
    BeforeZone,
    /// The zone without its SOA.
    Zone,
    /// The zone's SOA record that stands before the differences.
    BeforeChanges,
    /// The SOA records of a side.
    SideSoas(Side),
    /// The other records of a side.
    SideSets(Side),
    /// The zone's SOA record that ends the text.
    Last,
}

/// A record of the text: the part, the owner and type of the set in it, and the index in that set from 0. A set of the zone is kept with them, so
/// that it isn't looked up for each of its records.
#[derive(Drop)]
pub(crate) struct Place {
    pub(crate) part: Part,
    pub(crate) owner: KeyName,
    pub(crate) rtype: Rtype,
    pub(crate) index: usize,
    pub(crate) set: Option<SharedRrset>,
}

impl Place {
    /// The first record of a set in a part, which isn't kept.
    pub(crate) fn first_of(part: Part, owner: KeyName, rtype: Rtype) -> Place
        ensures { result ≡ record { part = part; owner = owner; rtype = rtype; index = 0; set = None } }
    {
        Place {
            part,
            owner,
            rtype,
            index: 0,
            set: None,
        }
    }
}
