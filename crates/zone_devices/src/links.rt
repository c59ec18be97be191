//! Links: what carries requests one way and replies the other.
ghost use Rattle.std.specs.Prelude.{◌≡◌, ◌≢◌, ◌↔◌, IfOk, OnOk, OnErr, option_map};
ghost use Rattle.zone_devices.specs.Calls.{Rose};
ghost use Rattle.zone_devices.specs.Links.{with_taken, after_take, on_requests, on_replies};

use std::alloc::AllocError;

/// Why a call of a link gave nothing.
#[derive(Clone, Copy, Debug, PartialEq, Eq)]
pub enum LinkError {
    /// The link failed, and its count of faults rose.
    Failed,
    /// There was no memory for a message.
    Memory,
}

impl From<AllocError> for LinkError {
    ghost use Rattle.std.specs.Prelude.{◌≡◌};
    ghost use Rattle.zone_devices.specs.declared.links.LinkError.TheVariants.{Memory};

    ghost from_gives = { λ _ e. e ≡ Memory };

    fn from(_error: AllocError) -> LinkError {
        LinkError::Memory
    }
}

/// What carries whole messages: requests from a secondary to a primary, replies the other way.
///
/// A link may lose, change or add messages, and any call may fail. Its ghost members say what it was given and what it
/// handed on, where it tells that, and how often it failed.
pub trait Link {
    ghost use Rattle.std.specs.Prelude.{ℕ, Option};
    ghost use Rattle.zone_devices.specs.Links.{LinkLists};

    /// What was taken and handed so far, where it is told.
    ghost lists: { Self → Option LinkLists };

    /// How often a call failed.
    ghost faults: { Self → ℕ };

    /// The length in octets of the longest request that it takes.
    ghost longest: { Self → ℕ };

    /// The length in octets of the longest request that it takes.
    fn max_len(&self) -> usize
        ensures { result ≡ longest self.now };

    /// Gives it a request.
    fn send_request(&mut self, octets: &[u8]) -> Result<(), LinkError>
        ensures ok { OnOk result (lists self.new ≡ option_map (on_requests (with_taken octets.now)) (lists self.old)) }
        ensures err { OnErr result (lists self.new ≡ lists self.old) }
        ensures failed { result ≡ Err LinkError.Failed → Rose (faults self.old) (faults self.new) }
        ensures steady { result ≢ Err LinkError.Failed → faults self.new ≡ faults self.old }
        ensures longest { longest self.new ≡ longest self.old };

    /// Takes the next request from it; None where no more come.
    fn take_request(&mut self) -> Result<Option<Vec<u8>>, LinkError>
        ensures ok { IfOk result (λ m. lists self.new ≡ option_map (on_requests (after_take (option_map (λ v. v.items) m))) (lists self.old)) }
        ensures err { OnErr result (lists self.new ≡ lists self.old) }
        ensures failed { result ≡ Err LinkError.Failed → Rose (faults self.old) (faults self.new) }
        ensures steady { result ≢ Err LinkError.Failed → faults self.new ≡ faults self.old }
        ensures longest { longest self.new ≡ longest self.old };

    /// Gives it a reply.
    fn send_reply(&mut self, octets: &[u8]) -> Result<(), LinkError>
        ensures ok { OnOk result (lists self.new ≡ option_map (on_replies (with_taken octets.now)) (lists self.old)) }
        ensures err { OnErr result (lists self.new ≡ lists self.old) }
        ensures failed { result ≡ Err LinkError.Failed → Rose (faults self.old) (faults self.new) }
        ensures steady { result ≢ Err LinkError.Failed → faults self.new ≡ faults self.old }
        ensures longest { longest self.new ≡ longest self.old };

    /// Takes the next reply from it; None where no more come.
    fn take_reply(&mut self) -> Result<Option<Vec<u8>>, LinkError>
        ensures ok { IfOk result (λ m. lists self.new ≡ option_map (on_replies (after_take (option_map (λ v. v.items) m))) (lists self.old)) }
        ensures err { OnErr result (lists self.new ≡ lists self.old) }
        ensures failed { result ≡ Err LinkError.Failed → Rose (faults self.old) (faults self.new) }
        ensures steady { result ≢ Err LinkError.Failed → faults self.new ≡ faults self.old }
        ensures longest { longest self.new ≡ longest self.old };
}
