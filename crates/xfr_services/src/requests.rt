// Requests as a service is asked them.
ghost use Rattle.std.specs.Prelude.{◌≡◌, ◌+◌, min};
ghost use Rattle.xfr_services.specs.Requests.{is_udp};

use dns_wire::MessageBuf;
use tsig_rdata::Time48;

/// How a request came.
#[derive(Clone, Copy, Debug, PartialEq, Eq)]
pub enum TransportSpecificContext {
    /// By UDP, with the greatest number of octets that the requestor takes, where it said one.
    Udp(Option<u16>),
    /// By a stream, as TCP.
    NonUdp,
}

impl TransportSpecificContext {
    /// Whether the request came by UDP.
    pub fn is_udp(self) -> bool
        ensures { result ≡ is_udp self }
    {
        matches!(self, TransportSpecificContext::Udp(_))
    }
}

/// A request: its message, how and when it came, and what services that had it before say of it.
#[derive(Drop)]
pub struct Request<M> {
    pub message: MessageBuf,
    pub transport: TransportSpecificContext,
    pub at: Time48,
    pub metadata: M,
    pub reserved: u16,
}

impl<M> Request<M> {
    /// A request of which no octets of the reply are reserved yet.
    pub fn new(
        message: MessageBuf,
        transport: TransportSpecificContext,
        now: Time48,
        metadata: M,
    ) -> Request<M>
        ensures message { result.message ≡ message }
        ensures transport { result.transport ≡ transport }
        ensures now { result.at ≡ now }
        ensures metadata { result.metadata ≡ metadata }
        ensures reserved { result.reserved ≡ 0 }
    {
        Request {
            message,
            transport,
            at: now,
            metadata,
            reserved: 0,
        }
    }

    /// The message.
    pub fn message(&self) -> &MessageBuf
        ensures { result.now ≡ self.now.message }
    {
        &self.message
    }

    /// How the request came.
    pub fn transport(&self) -> TransportSpecificContext
        ensures { result ≡ self.now.transport }
    {
        self.transport
    }

    /// When the request came.
    pub fn now(&self) -> Time48
        ensures { result ≡ self.now.at }
    {
        self.at
    }

    /// How many octets a service leaves free at the end of each reply, for those that it goes through afterwards.
    pub fn num_reserved_bytes(&self) -> u16
        ensures { result ≡ self.now.reserved }
    {
        self.reserved
    }

    /// Reserves so many octets more, up to 65,535 in all.
    pub fn reserve_bytes(&mut self, len: u16)
        ensures reserved { self.new.reserved ≡ min (self.old.reserved + len) 65535 }
        ensures message { self.new.message ≡ self.old.message }
        ensures transport { self.new.transport ≡ self.old.transport }
        ensures now { self.new.at ≡ self.old.at }
        ensures metadata { self.new.metadata ≡ self.old.metadata }
    {
        self.reserved = self.reserved.saturating_add(len);
    }

    /// What earlier services say of the request.
    pub fn metadata(&self) -> &M
        ensures { result.now ≡ self.now.metadata }
    {
        &self.metadata
    }

    /// The same request with other metadata.
    pub fn with_new_metadata<T>(self, metadata: T) -> Request<T>
    where
        M: Drop,
        ensures message { result.message ≡ self.message }
        ensures transport { result.transport ≡ self.transport }
        ensures now { result.at ≡ self.at }
        ensures reserved { result.reserved ≡ self.reserved }
        ensures metadata { result.metadata ≡ metadata }
    {
        Request {
            message: self.message,
            transport: self.transport,
            at: self.at,
            metadata,
            reserved: self.reserved,
        }
    }
}
