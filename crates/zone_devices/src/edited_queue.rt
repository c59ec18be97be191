//! Messages that go one way, kept, edited and handed on in order.
ghost use Rattle.std.specs.Prelude.{◌≡◌, [], IfOk, OnOk, OnErr, option_map};
ghost use Rattle.zone_devices.specs.Links.{no_way, with_taken, after_take};
ghost use Rattle.zone_devices.specs.Edits.{edited, to_edit, with_waiting};
ghost use Rattle.zone_devices.specs.Queues.{Heads};

use crate::queue::Queue;
use crate::reply_edits::{ReplyEdit, edited_copies};
use std::alloc::{AllocError, Global};
use std::marker::Model;

/// Messages of one way: all that were put in, and those that it hands on, which are the same but for the edits.
#[derive(Drop)]
pub(crate) struct EditedQueue {
    alloc: Global,
    edits: Vec<ReplyEdit>,
    taken: Vec<Vec<u8>>,
    queue: Queue,
}

impl Model for EditedQueue {
    ghost use Rattle.std.specs.Prelude.{◌≡◌, ◌⊎◌, length};
    ghost use Rattle.zone_devices.specs.Edits.{octets_of};
    ghost use Rattle.zone_devices.specs.Queues.{EditedWay, waiting_of, way_of};

    ghost Value = { EditedWay };

    ghost view = { λ q. record { way = record { taken = octets_of q.taken.items; handed = (way_of q.queue).handed; ended = q.queue.stopped }; editing = record { edits = q.edits.items; waiting = waiting_of q.queue } } };

    // no reply was handed on before the edits were made
    ghost invariant = { λ q. (length q.edits.items ≡ 0) ⊎ (q.queue.count ≡ 0) };
}

impl EditedQueue {
    /// A way over which nothing went yet, with the edits to be made once the first message is asked for.
    pub(crate) fn new(alloc: Global, edits: Vec<ReplyEdit>) -> EditedQueue
        ensures { result ≡ record { way = no_way; editing = to_edit edits.items } }
    {
        EditedQueue {
            alloc,
            edits,
            taken: Vec::new(alloc),
            queue: Queue::new(alloc),
        }
    }

    /// Puts a copy of a message in, as the last one.
    pub(crate) fn put(&mut self, octets: &[u8]) -> Result<(), AllocError>
        ensures way { OnOk result (self.new.way ≡ with_taken octets.now self.old.way) }
        ensures editing { OnOk result (self.new.editing ≡ with_waiting octets.now self.old.editing) }
        ensures err { OnErr result (self.new ≡ self.old) }
    {
        let message = octets.to_vec(self.alloc)?;
        self.taken.reserve(1)?;
        self.queue.put(octets)?;
        self.taken.push_reserved(message);
        Ok(())
    }

    /// Hands on the next message, or None where all of them were. The edits are made first.
    pub(crate) fn take(&mut self) -> Result<Option<Vec<u8>>, AllocError>
        ensures way { IfOk result (λ m. self.new.way ≡ after_take (option_map (λ v. v.items) m) self.old.way) }
        ensures next { IfOk result (λ m. Heads (option_map (λ v. v.items) m) (edited self.old.editing.edits self.old.editing.waiting) self.new.editing.waiting) }
        ensures done { OnOk result (self.new.editing.edits ≡ []) }
        ensures err { OnErr result (self.new ≡ self.old) }
    {
        if self.edits.is_empty() {
            return self.queue.take();
        }
        let messages = edited_copies(self.alloc, self.edits.as_slice(), self.queue.waiting())?;
        let mut queue = Queue::of(self.alloc, messages);
        let next = queue.take()?;
        self.queue = queue;
        self.edits.clear();
        Ok(next)
    }
}
