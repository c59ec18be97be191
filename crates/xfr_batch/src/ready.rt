// The messages of a transfer that are ready to be sent.
ghost use Rattle.std.specs.Prelude.{◌≡◌, ◌∷◌, ◌++◌, [], length, OnOk, OnErr};
ghost use Rattle.xfr_batch.specs.ReadyMessages.{none_ready};
ghost use Rattle.xfr_batch.specs.XfrBatches.{push_limit, is_one_of_many, TakesReady};

use dns_wire::AdditionalBuilder;
use std::alloc::{AllocError, Global};
use std::collections::VecDeque;
use std::marker::Model;

/// What the callbacks of a transfer keep: the messages that are ready to be sent, in order, and the limits. Contracts see these.
#[derive(Drop)]
pub struct ReadyMessages {
    ready: VecDeque<AdditionalBuilder>,
    soft_byte_limit: Option<usize>,
    hard_rr_limit: Option<u16>,
    must_fit: bool,
}

impl Model for ReadyMessages {
    ghost use Rattle.xfr_batch.specs.ReadyMessages.{Kept};

    ghost Value = { Kept };

    ghost view = { λ s. record { ready = s.ready.items; soft_byte_limit = s.soft_byte_limit; hard_rr_limit = s.hard_rr_limit; must_fit = s.must_fit } };
}

impl ReadyMessages {
    /// No message, and these limits.
    pub(crate) fn new(
        alloc: Global,
        soft_byte_limit: Option<usize>,
        hard_rr_limit: Option<u16>,
        must_fit: bool,
    ) -> ReadyMessages
        ensures { result ≡ none_ready soft_byte_limit hard_rr_limit must_fit }
    {
        ReadyMessages {
            ready: VecDeque::new(alloc),
            soft_byte_limit,
            hard_rr_limit,
            must_fit,
        }
    }

    /// How many messages are ready.
    pub fn len(&self) -> usize
        ensures { result ≡ length self.now.ready }
    {
        self.ready.len()
    }

    /// How many octets a message may have.
    pub(crate) fn push_limit(&self) -> usize
        ensures { result ≡ push_limit self.now.soft_byte_limit }
    {
        match self.soft_byte_limit {
            Some(limit) => limit,
            None => 65535,
        }
    }

    /// How many records a message may have, if that is limited.
    pub(crate) fn hard_rr_limit(&self) -> Option<u16>
        ensures { result ≡ self.now.hard_rr_limit }
    {
        self.hard_rr_limit
    }

    /// Whether a message is one too many.
    pub(crate) fn is_one_of_many(&self, finished: bool) -> bool
        ensures { result ≡ is_one_of_many self.now finished }
    {
        self.must_fit && !finished
    }

    /// Keeps a message behind the others.
    pub(crate) fn keep(&mut self, message: AdditionalBuilder) -> Result<(), AllocError>
        ensures ok { OnOk result (self.new ≡ record self.old { ready = self.old.ready ++ message ∷ [] }) }
        ensures err { OnErr result (self.new ≡ self.old) }
    {
        self.ready.push_back(message)?;
        Ok(())
    }

    /// Takes the first message out; None where none is ready.
    pub fn take_ready(&mut self) -> Option<AdditionalBuilder>
        ensures { TakesReady self.old result self.new }
    {
        self.ready.pop_front()
    }
}
