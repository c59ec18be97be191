//! A link in memory whose calls can be made to fail.
ghost use Rattle.std.specs.Prelude.{◌≡◌, ◌↔◌, [], IsTrue, IfOk, OnOk, OnErr, option_map};
ghost use Rattle.zone_devices.specs.Links.{no_lists, on_requests, on_replies, with_taken, after_take};
ghost use Rattle.zone_devices.specs.Calls.{no_calls, fails_next, after_call};
ghost use Rattle.zone_devices.specs.Edits.{edited, to_edit, with_waiting};
ghost use Rattle.zone_devices.specs.Queues.{Heads};

use crate::edited_queue::EditedQueue;
use crate::failures::Failures;
use crate::links::{Link, LinkError};
use crate::queue::Queue;
use crate::reply_edits::ReplyEdit;
use std::alloc::Global;
use std::marker::Model;

/// A link in memory: what it takes it hands on octet for octet, first in, first out, where it doesn't fail and has no edits.
///
/// Edits of replies are made, in their order, when the first reply is asked for by a call that doesn't fail; replies that
/// it takes later follow as they are.
///
/// Its four calls are numbered together from 1, in the order in which they are made, and those of a list fail: such a
/// call takes and hands nothing.
#[derive(Drop)]
pub struct MemoryLink {
    requests: Queue,
    replies: EditedQueue,
    longest: usize,
    failures: Failures,
}

impl Model for MemoryLink {
    ghost use Rattle.zone_devices.specs.Queues.{Kept, way_of};

    ghost Value = { Kept };

    ghost view = { λ l. record { lists = record { requests = way_of l.requests; replies = l.replies.way }; longest = l.longest; calls = l.failures; editing = l.replies.editing } };
}

impl MemoryLink {
    /// A link over which nothing went yet, which takes requests of up to `max_len` octets; the calls of the list fail.
    pub fn new(alloc: Global, max_len: usize, failing: Vec<u64>) -> MemoryLink
        ensures { result ≡ record { lists = no_lists; longest = max_len; calls = no_calls failing.items; editing = to_edit [] } }
    {
        MemoryLink::with_edits(alloc, max_len, failing, Vec::new(alloc))
    }

    /// The same, with edits of replies.
    pub fn with_edits(
        alloc: Global,
        max_len: usize,
        failing: Vec<u64>,
        edits: Vec<ReplyEdit>,
    ) -> MemoryLink
        ensures { result ≡ record { lists = no_lists; longest = max_len; calls = no_calls failing.items; editing = to_edit edits.items } }
    {
        MemoryLink {
            requests: Queue::new(alloc),
            replies: EditedQueue::new(alloc, edits),
            longest: max_len,
            failures: Failures::new(failing),
        }
    }
}

impl Link for MemoryLink {
    ghost use Rattle.std.specs.Prelude.{Some};

    ghost lists = { λ l. Some l.lists };

    ghost faults = { λ l. l.calls.faults };

    ghost longest = { λ l. l.longest };

    fn max_len(&self) -> usize {
        self.longest
    }

    fn send_request(&mut self, octets: &[u8]) -> Result<(), LinkError>
        ensures fails { result ≡ Err LinkError.Failed ↔ IsTrue (fails_next self.old.calls) }
        ensures calls { self.new.calls ≡ after_call self.old.calls }
        ensures ok { OnOk result (self.new.lists ≡ on_requests (with_taken octets.now) self.old.lists) }
        ensures err { OnErr result (self.new.lists ≡ self.old.lists) }
        ensures longest { self.new.longest ≡ self.old.longest }
        ensures editing { self.new.editing ≡ self.old.editing }
    {
        if self.failures.is_next_failing() {
            return Err(LinkError::Failed);
        }
        Ok(self.requests.put(octets)?)
    }

    fn take_request(&mut self) -> Result<Option<Vec<u8>>, LinkError>
        ensures fails { result ≡ Err LinkError.Failed ↔ IsTrue (fails_next self.old.calls) }
        ensures calls { self.new.calls ≡ after_call self.old.calls }
        ensures ok { IfOk result (λ m. self.new.lists ≡ on_requests (after_take (option_map (λ v. v.items) m)) self.old.lists) }
        ensures err { OnErr result (self.new.lists ≡ self.old.lists) }
        ensures longest { self.new.longest ≡ self.old.longest }
        ensures editing { self.new.editing ≡ self.old.editing }
    {
        if self.failures.is_next_failing() {
            return Err(LinkError::Failed);
        }
        Ok(self.requests.take()?)
    }

    fn send_reply(&mut self, octets: &[u8]) -> Result<(), LinkError>
        ensures fails { result ≡ Err LinkError.Failed ↔ IsTrue (fails_next self.old.calls) }
        ensures calls { self.new.calls ≡ after_call self.old.calls }
        ensures ok { OnOk result (self.new.lists ≡ on_replies (with_taken octets.now) self.old.lists) }
        ensures err { OnErr result (self.new.lists ≡ self.old.lists) }
        ensures longest { self.new.longest ≡ self.old.longest }
        ensures editing { OnOk result (self.new.editing ≡ with_waiting octets.now self.old.editing) }
        ensures unedited { OnErr result (self.new.editing ≡ self.old.editing) }
    {
        if self.failures.is_next_failing() {
            return Err(LinkError::Failed);
        }
        Ok(self.replies.put(octets)?)
    }

    fn take_reply(&mut self) -> Result<Option<Vec<u8>>, LinkError>
        ensures fails { result ≡ Err LinkError.Failed ↔ IsTrue (fails_next self.old.calls) }
        ensures calls { self.new.calls ≡ after_call self.old.calls }
        ensures ok { IfOk result (λ m. self.new.lists ≡ on_replies (after_take (option_map (λ v. v.items) m)) self.old.lists) }
        ensures err { OnErr result (self.new.lists ≡ self.old.lists) }
        ensures longest { self.new.longest ≡ self.old.longest }
        ensures next { IfOk result (λ m. Heads (option_map (λ v. v.items) m) (edited self.old.editing.edits self.old.editing.waiting) self.new.editing.waiting) }
        ensures edited { OnOk result (self.new.editing.edits ≡ []) }
        ensures unedited { OnErr result (self.new.editing ≡ self.old.editing) }
    {
        if self.failures.is_next_failing() {
            return Err(LinkError::Failed);
        }
        Ok(self.replies.take()?)
    }
}
