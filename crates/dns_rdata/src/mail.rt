// Where mail goes.
ghost use Rattle.std.specs.Prelude.{◌≡◌, ◌+◌, IfOk, OnErr, Some, None};
ghost use Rattle.dns_name.specs.Records.{fields_at, parts};
ghost use Rattle.dns_name.specs.LentFields.{fields_in};
ghost use Rattle.dns_rdata.specs.DataFields.{minfo_fields, mx_fields};

use crate::record_data::{RecordData, ends_at};
use dns_name::{
    Labelled, LentField, LentFields, Numbers, ParseError, ParsedName, StoredName, parse_u16,
};
use dns_numbers::Rtype;
use std::alloc::{AllocError, Global};

/// The mailboxes of a mailing list or mailbox (MINFO; RFC 1035, 3.3.7).
#[derive(Clone, Debug, Drop)]
pub struct Minfo<N: Labelled + Drop> {
    pub rmailbx: N,
    pub emailbx: N,
}

impl<N: Labelled + Drop> Minfo<N> {
    /// The data of the mailbox of the one responsible, and of the one for errors.
    pub fn new(rmailbx: N, emailbx: N) -> Minfo<N>
        ensures { result ≡ record { rmailbx = rmailbx; emailbx = emailbx } }
    {
        Minfo { rmailbx, emailbx }
    }

    /// The mailbox of the one responsible, as a name.
    pub fn rmailbx(&self) -> &N
        ensures { result.now ≡ self.now.rmailbx }
    {
        &self.rmailbx
    }

    /// The mailbox that gets the errors, as a name.
    pub fn emailbx(&self) -> &N
        ensures { result.now ≡ self.now.emailbx }
    {
        &self.emailbx
    }

    /// The data as fields, lent.
    pub fn lent_fields(&self) -> LentFields<'_, N>
        ensures { fields_in N.labels result ≡ minfo_fields N.labels self.now }
    {
        LentFields::Two(
            LentField::DomainName(&self.rmailbx),
            LentField::DomainName(&self.emailbx),
        )
    }

    /// The same data in memory of their own.
    pub fn flatten(&self, alloc: Global) -> Result<Minfo<StoredName>, AllocError>
        ensures { IfOk result (λ d. minfo_fields (λ n. n) d ≡ minfo_fields N.labels self.now) }
    {
        Ok(Minfo {
            rmailbx: self.rmailbx.to_stored(alloc)?,
            emailbx: self.emailbx.to_stored(alloc)?,
        })
    }
}

impl<'m> Minfo<ParsedName<'m>> {
    /// The two names in the `len` octets at place `pos` of a message, which they fill exactly; else an error.
    #[tactic(auto, unfolding(dns_name::specs::Records::fields_at))]
    pub fn parse(
        message: &'m [u8],
        pos: usize,
        len: u16,
    ) -> Result<Minfo<ParsedName<'m>>, ParseError>
        ensures found { IfOk result (λ d. fields_at (parts 14) message.now (pos + len) pos ≡ Some (minfo_fields (λ n. n) d)) }
        ensures none { OnErr result (fields_at (parts 14) message.now (pos + len) pos ≡ None) }
    {
        let (rmailbx, second) = ParsedName::parse(message, pos)?;
        let (emailbx, after) = ParsedName::parse(message, second)?;
        if !ends_at(pos, len, after) {
            return Err(ParseError);
        }
        Ok(Minfo { rmailbx, emailbx })
    }
}

impl<N: Labelled + Drop> RecordData for Minfo<N> {
    ghost rtype = { λ d. 14 };

    ghost fields = { minfo_fields N.labels };

    fn rtype(&self) -> Rtype {
        Rtype::MINFO
    }

    fn rdlen(&self) -> u16 {
        self.rmailbx.compose_len() + self.emailbx.compose_len()
    }

    fn compose_rdata(&self, out: &mut Vec<u8>) -> Result<(), AllocError> {
        self.lent_fields().compose(out)
    }
}

/// A host that takes mail for the owner (MX; RFC 1035, 3.3.9).
#[derive(Clone, Debug, Drop)]
pub struct Mx<N: Labelled + Drop> {
    pub preference: u16,
    pub exchange: N,
}

impl<N: Labelled + Drop> Mx<N> {
    /// The data of this preference and host.
    pub fn new(preference: u16, exchange: N) -> Mx<N>
        ensures { result ≡ record { preference = preference; exchange = exchange } }
    {
        Mx {
            preference,
            exchange,
        }
    }

    /// Where the host stands among those of the owner; lower ones are tried first.
    pub fn preference(&self) -> u16
        ensures { result ≡ self.now.preference }
    {
        self.preference
    }

    /// The host.
    pub fn exchange(&self) -> &N
        ensures { result.now ≡ self.now.exchange }
    {
        &self.exchange
    }

    /// The data as fields, lent.
    pub fn lent_fields(&self) -> LentFields<'_, N>
        ensures { fields_in N.labels result ≡ mx_fields N.labels self.now }
    {
        LentFields::Two(
            LentField::numbers(Numbers::Two(self.preference.to_be_bytes())),
            LentField::DomainName(&self.exchange),
        )
    }

    /// The same data in memory of their own.
    pub fn flatten(&self, alloc: Global) -> Result<Mx<StoredName>, AllocError>
        ensures { IfOk result (λ d. mx_fields (λ n. n) d ≡ mx_fields N.labels self.now) }
    {
        Ok(Mx {
            preference: self.preference,
            exchange: self.exchange.to_stored(alloc)?,
        })
    }
}

impl<'m> Mx<ParsedName<'m>> {
    /// The preference and the name in the `len` octets at place `pos` of a message, which they fill exactly; else an error.
    #[tactic(auto, unfolding(dns_name::specs::Records::fields_at))]
    pub fn parse(message: &'m [u8], pos: usize, len: u16) -> Result<Mx<ParsedName<'m>>, ParseError>
        ensures found { IfOk result (λ d. fields_at (parts 15) message.now (pos + len) pos ≡ Some (mx_fields (λ n. n) d)) }
        ensures none { OnErr result (fields_at (parts 15) message.now (pos + len) pos ≡ None) }
    {
        let (preference, second) = parse_u16(message, pos)?;
        let (exchange, after) = ParsedName::parse(message, second)?;
        if !ends_at(pos, len, after) {
            return Err(ParseError);
        }
        Ok(Mx {
            preference,
            exchange,
        })
    }
}

impl<N: Labelled + Drop> RecordData for Mx<N> {
    ghost rtype = { λ d. 15 };

    ghost fields = { mx_fields N.labels };

    fn rtype(&self) -> Rtype {
        Rtype::MX
    }

    fn rdlen(&self) -> u16 {
        2 + self.exchange.compose_len()
    }

    fn compose_rdata(&self, out: &mut Vec<u8>) -> Result<(), AllocError> {
        self.lent_fields().compose(out)
    }
}
