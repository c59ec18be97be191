//! How much a peer may send in one exchange.
ghost use Rattle.std.specs.Prelude.{◌≡◌, [], ◌∷◌, Some, IfOk, IfErr};
ghost use Rattle.zone_asking.specs.Limiting.{unlimited, records_in, passed, IsLeft};

use dns_wire::Message;

/// The most that is read in one exchange.
#[derive(Clone, Copy, Debug, PartialEq, Eq)]
pub struct Limits {
    /// Replies.
    pub replies: u32,
    /// Their octets together, without the two of length before each.
    pub octets: u64,
    /// The records that their headers count in their answer sections together.
    pub records: u64,
    /// The records of one set, an owner's of one type; None for as many as come.
    pub set_records: Option<usize>,
}

/// Which limit a further reply would pass.
#[derive(Clone, Copy, Debug, PartialEq, Eq)]
pub enum Limit {
    /// The number of replies.
    Replies,
    /// Their octets.
    Octets,
    /// Their records.
    Records,
}

impl Limits {
    /// The greatest numbers.
    pub fn none() -> Limits
        ensures { result ≡ unlimited }
    {
        Limits {
            replies: u32::MAX,
            octets: u64::MAX,
            records: u64::MAX,
            set_records: None,
        }
    }

    /// What is left behind a message, or the first limit that it passes.
    pub(crate) fn behind(self, message: &[u8]) -> Result<Limits, Limit>
        ensures left { IfOk result (λ left. IsLeft self (message.now ∷ []) left) }
        ensures passed { IfErr result (λ which. passed self [] message.now ≡ Some which) }
    {
        let octets = message.len() as u64;
        let records = records_in(message);
        if self.replies < 1 {
            return Err(Limit::Replies);
        }
        if self.octets < octets {
            return Err(Limit::Octets);
        }
        if self.records < records {
            return Err(Limit::Records);
        }
        Ok(Limits {
            replies: self.replies - 1,
            octets: self.octets - octets,
            records: self.records - records,
            set_records: self.set_records,
        })
    }
}

/// How many records a message's header counts in its answer section; none in octets that are no header.
fn records_in(octets: &[u8]) -> u64
    ensures { result ≡ records_in octets.now }
{
    match Message::from_octets(octets) {
        Ok(message) => u64::from(message.counts().ancount),
        Err(_) => 0,
    }
}
