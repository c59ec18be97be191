// Where a service is.
ghost use Rattle.std.specs.Prelude.{◌≡◌, ◌+◌, IfOk, OnErr, Some, None, length};
ghost use Rattle.dns_name.specs.Records.{fields_at, parts};
ghost use Rattle.dns_name.specs.LentFields.{fields_in};
ghost use Rattle.dns_rdata.specs.DataFields.{srv_fields, srv_numbers};

use crate::record_data::{RecordData, ends_at};
use dns_name::{
    Labelled, LentField, LentFields, Numbers, ParseError, ParsedName, StoredName, parse_octets,
};
use dns_numbers::Rtype;
use std::alloc::{AllocError, Global};

/// A host and port that offer a service (SRV; RFC 2782).
#[derive(Clone, Debug, Drop)]
pub struct Srv<N: Labelled + Drop> {
    pub priority: u16,
    pub weight: u16,
    pub port: u16,
    pub target: N,
}

impl<N: Labelled + Drop> Srv<N> {
    /// The data of this priority, weight, port and host.
    pub fn new(priority: u16, weight: u16, port: u16, target: N) -> Srv<N>
        ensures { result ≡ record { priority = priority; weight = weight; port = port; target = target } }
    {
        Srv {
            priority,
            weight,
            port,
            target,
        }
    }

    /// Where the host stands among those of the owner; lower ones are tried first.
    pub fn priority(&self) -> u16
        ensures { result ≡ self.now.priority }
    {
        self.priority
    }

    /// The host's share among those of one priority.
    pub fn weight(&self) -> u16
        ensures { result ≡ self.now.weight }
    {
        self.weight
    }

    /// The port of the service at the host.
    pub fn port(&self) -> u16
        ensures { result ≡ self.now.port }
    {
        self.port
    }

    /// The host; the root name where the service isn't offered.
    pub fn target(&self) -> &N
        ensures { result.now ≡ self.now.target }
    {
        &self.target
    }

    /// The data of this host, and of the three numbers in six octets as they are sent.
    #[tactic(auto, unfolding(crate::specs::DataFields::srv_numbers))]
    fn of_numbers(numbers: &[u8], target: N) -> Srv<N>
        requires { length numbers.now ≡ 6 }
        ensures numbers { srv_numbers result ≡ numbers.now }
        ensures target { result.target ≡ target }
    {
        Srv {
            priority: u16::from_be_bytes([numbers[0], numbers[1]]),
            weight: u16::from_be_bytes([numbers[2], numbers[3]]),
            port: u16::from_be_bytes([numbers[4], numbers[5]]),
            target,
        }
    }

    /// Priority, weight and port in six octets, as they are sent.
    #[tactic(auto, unfolding(crate::specs::DataFields::srv_numbers))]
    pub fn numbers(&self) -> [u8; 6]
        ensures { result ≡ srv_numbers self.now }
    {
        let [a, b] = self.priority.to_be_bytes();
        let [c, d] = self.weight.to_be_bytes();
        let [e, f] = self.port.to_be_bytes();
        [a, b, c, d, e, f]
    }

    /// The data as fields, lent.
    pub fn lent_fields(&self) -> LentFields<'_, N>
        ensures { fields_in N.labels result ≡ srv_fields N.labels self.now }
    {
        LentFields::Two(
            LentField::numbers(Numbers::Six(self.numbers())),
            LentField::DomainName(&self.target),
        )
    }

    /// The same data in memory of their own.
    #[tactic(auto, unfolding(crate::specs::DataFields::srv_numbers))]
    pub fn flatten(&self, alloc: Global) -> Result<Srv<StoredName>, AllocError>
        ensures { IfOk result (λ d. srv_fields (λ n. n) d ≡ srv_fields N.labels self.now) }
    {
        Ok(Srv {
            priority: self.priority,
            weight: self.weight,
            port: self.port,
            target: self.target.to_stored(alloc)?,
        })
    }
}

impl<'m> Srv<ParsedName<'m>> {
    /// The numbers and the name in the `len` octets at place `pos` of a message, which they fill exactly; else an error.
    #[tactic(auto, unfolding(dns_name::specs::Records::fields_at))]
    pub fn parse(message: &'m [u8], pos: usize, len: u16) -> Result<Srv<ParsedName<'m>>, ParseError>
        ensures found { IfOk result (λ d. fields_at (parts 33) message.now (pos + len) pos ≡ Some (srv_fields (λ n. n) d)) }
        ensures none { OnErr result (fields_at (parts 33) message.now (pos + len) pos ≡ None) }
    {
        let (numbers, second) = parse_octets(message, pos, 6)?;
        let (target, after) = ParsedName::parse(message, second)?;
        if !ends_at(pos, len, after) {
            return Err(ParseError);
        }
        Ok(Srv::of_numbers(numbers, target))
    }
}

impl<N: Labelled + Drop> RecordData for Srv<N> {
    ghost rtype = { λ d. 33 };

    ghost fields = { srv_fields N.labels };

    fn rtype(&self) -> Rtype {
        Rtype::SRV
    }

    #[tactic(auto, unfolding(crate::specs::DataFields::srv_numbers))]
    fn rdlen(&self) -> u16 {
        6 + self.target.compose_len()
    }

    fn compose_rdata(&self, out: &mut Vec<u8>) -> Result<(), AllocError> {
        self.lent_fields().compose(out)
    }
}
