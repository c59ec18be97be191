//! A link that hands on all that it took.
ghost use Rattle.std.specs.Prelude.{◌≡◌, List, ℕ};
ghost use Rattle.zone_devices.specs.Links.{BothWentOn, HasHandedAll, IsHonest, LinkLists, no_lists};

use crate::links::{Link, LinkError};
use crate::queue::Queue;
use std::alloc::Global;
use std::marker::Model;

/// A link in memory: what it takes it hands on octet for octet, first in, first out. It never fails.
///
/// It keeps every message, and takes requests of up to 65,535 octets.
#[derive(Drop)]
pub struct LoopLink {
    requests: Queue,
    replies: Queue,
}

impl Model for LoopLink {
    ghost use Rattle.zone_devices.specs.Links.{LinkLists};
    ghost use Rattle.zone_devices.specs.Queues.{way_of};

    ghost Value = { LinkLists };

    ghost view = { λ l. record { requests = way_of l.requests; replies = way_of l.replies } };
}

impl LoopLink {
    /// A link over which nothing went yet.
    pub fn new(alloc: Global) -> LoopLink
        ensures { result ≡ no_lists }
    {
        LoopLink {
            requests: Queue::new(alloc),
            replies: Queue::new(alloc),
        }
    }

    /// That it was honest since it was new: each way handed on what it took, in order, and said that no more come only after the
    /// last. It does nothing.
    pub fn honesty(&self)
        ensures { IsHonest no_lists self.now 0 0 }
    {
        self.requests.honesty();
        self.replies.honesty();
    }

    /// That it was honest since any state in which it had nothing left to hand on, whatever went over it since. It does nothing.
    pub fn honesty_since(&self)
        ensures { (old : LinkLists) (asked heard sent handed : List (List ℕ)) → HasHandedAll old → BothWentOn old self.now asked heard sent handed → IsHonest old self.now 0 0 }
    {
        self.honesty();
    }
}

impl Link for LoopLink {
    ghost use Rattle.std.specs.Prelude.{Some};

    ghost lists = { λ l. Some l };

    ghost faults = { λ l. 0 };

    ghost longest = { λ l. 65535 };

    fn max_len(&self) -> usize {
        65_535
    }

    fn send_request(&mut self, octets: &[u8]) -> Result<(), LinkError> {
        Ok(self.requests.put(octets)?)
    }

    fn take_request(&mut self) -> Result<Option<Vec<u8>>, LinkError> {
        Ok(self.requests.take()?)
    }

    fn send_reply(&mut self, octets: &[u8]) -> Result<(), LinkError> {
        Ok(self.replies.put(octets)?)
    }

    fn take_reply(&mut self) -> Result<Option<Vec<u8>>, LinkError> {
        Ok(self.replies.take()?)
    }
}
