//! Messages that go one way, kept and handed on in order.
ghost use Rattle.std.specs.Prelude.{◌≡◌, false, ◌∷◌, ◌++◌, [], IfOk, OnOk, OnErr, option_map, ℕ};
ghost use Rattle.zone_devices.specs.Links.{Way, HandsOn, no_way, with_taken, after_take};
ghost use Rattle.zone_devices.specs.Edits.{octets_of};
ghost use Rattle.zone_devices.specs.Queues.{Heads, way_of, waiting_of, with_message, no_queue};

use std::alloc::{AllocError, Global};
use std::marker::Model;

/// Messages of one way: all that were put in, and how many of them were handed on.
#[derive(Drop)]
pub(crate) struct Queue {
    alloc: Global,
    messages: Vec<Vec<u8>>,
    count: usize,
    stopped: bool,
}

impl Model for Queue {
    ghost use Rattle.std.specs.Prelude.{◌≡◌, ℕ, ◌≤◌, length, map, IsTrue};
    ghost use Rattle.zone_devices.specs.Queues.{Queued};

    ghost Value = { Queued };

    ghost view = { λ q. record { messages = map (λ m. m.items) q.messages.items; count = q.count; stopped = q.stopped } };

    ghost invariant = { λ q. (q.count ≤ length q.messages.items) × (IsTrue q.stopped → q.count ≡ length q.messages.items) };
}

impl Queue {
    /// A way over which nothing went yet.
    pub(crate) fn new(alloc: Global) -> Queue
        ensures { result ≡ no_queue }
    {
        Queue {
            alloc,
            messages: Vec::new(alloc),
            count: 0,
            stopped: false,
        }
    }

    /// Messages of which none was handed on yet.
    pub(crate) fn of(alloc: Global, messages: Vec<Vec<u8>>) -> Queue
        ensures { result ≡ record { messages = octets_of messages.items; count = 0; stopped = false } }
    {
        Queue {
            alloc,
            messages,
            count: 0,
            stopped: false,
        }
    }

    /// What wasn't handed on yet.
    pub(crate) fn waiting(&self) -> &[Vec<u8>]
        ensures { octets_of result.now ≡ waiting_of self.now }
    {
        &self.messages[self.count..]
    }

    /// That what was handed on is a first part of what was put in, and all of it once the end was told. It does nothing.
    pub(crate) fn honesty(&self)
        ensures { HandsOn no_way (way_of self.now) }
    {
        let _messages = &self.messages;
        let _count = self.count;
        let _stopped = self.stopped;
    }

    /// Puts a copy of a message in, as the last one.
    pub(crate) fn put(&mut self, octets: &[u8]) -> Result<(), AllocError>
        ensures ok { OnOk result (way_of self.new ≡ with_taken octets.now (way_of self.old)) }
        ensures put { OnOk result (self.new ≡ with_message octets.now self.old) }
        ensures waits { OnOk result (waiting_of self.new ≡ waiting_of self.old ++ octets.now ∷ []) }
        ensures err { OnErr result (self.new ≡ self.old) }
    {
        let message = octets.to_vec(self.alloc)?;
        self.messages.push(message)?;
        self.stopped = false;
        Ok(())
    }

    /// Hands on the next message, or None where all of them were.
    pub(crate) fn take(&mut self) -> Result<Option<Vec<u8>>, AllocError>
        ensures ok { IfOk result (λ m. way_of self.new ≡ after_take (option_map (λ v. v.items) m) (way_of self.old)) }
        ensures next { IfOk result (λ m. Heads (option_map (λ v. v.items) m) (waiting_of self.old) (waiting_of self.new)) }
        ensures err { OnErr result (self.new ≡ self.old) }
    {
        match self.messages.get(self.count) {
            None => {
                self.stopped = true;
                Ok(None)
            }
            Some(message) => {
                let octets = message.as_slice().to_vec(self.alloc)?;
                self.count += 1;
                self.stopped = false;
                Ok(Some(octets))
            }
        }
    }
}
