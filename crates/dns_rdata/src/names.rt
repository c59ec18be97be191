// Data that are one domain name.
ghost use Rattle.std.specs.Prelude.{◌≡◌, ◌+◌, IfOk, OnErr, Some, None};
ghost use Rattle.dns_name.specs.Records.{fields_at, parts};
ghost use Rattle.dns_rdata.specs.DataFields.{name_fields};

use crate::name_types::{
    CnameType, MbType, MdType, MfType, MgType, MrType, NameType, NsType, PtrType,
};
use crate::record_data::{RecordData, ends_at};
use dns_name::{Labelled, ParseError, ParsedName, StoredName};
use dns_numbers::Rtype;
use std::alloc::{AllocError, Global};
use std::marker::{Model, PhantomData};

/// Data of type `T` that are one name. Each type of this kind has a name of its own below (RFC 1035, 3.3).
#[derive(Drop)]
#[derive_where(Debug; N)]
pub struct NameData<N: Labelled + Drop, T: NameType> {
    name: N,
    of_type: PhantomData<T>,
}

impl<N: Labelled + Drop, T: NameType> Model for NameData<N, T> {
    ghost Value = { N };

    ghost view = { λ d. d.name };
}

/// The name of a server of the zone (NS; RFC 1035, 3.3.11).
pub type Ns<N> = NameData<N, NsType>;

/// A host that takes mail for the owner, obsolete (MD; RFC 1035, 3.3.4).
pub type Md<N> = NameData<N, MdType>;

/// A host that forwards mail for the owner, obsolete (MF; RFC 1035, 3.3.5).
pub type Mf<N> = NameData<N, MfType>;

/// The name that the owner stands for (CNAME; RFC 1035, 3.3.1).
pub type Cname<N> = NameData<N, CnameType>;

/// A host that has the owner's mailbox (MB; RFC 1035, 3.3.3).
pub type Mb<N> = NameData<N, MbType>;

/// A mailbox of the mail group that the owner is (MG; RFC 1035, 3.3.6).
pub type Mg<N> = NameData<N, MgType>;

/// The new name of the mailbox that the owner is (MR; RFC 1035, 3.3.8).
pub type Mr<N> = NameData<N, MrType>;

/// The name that the owner points to (PTR; RFC 1035, 3.3.12).
pub type Ptr<N> = NameData<N, PtrType>;

impl<N: Labelled + Drop, T: NameType> NameData<N, T> {
    /// The data of this name.
    pub fn new(name: N) -> NameData<N, T>
        ensures { result ≡ name }
    {
        NameData {
            name,
            of_type: PhantomData,
        }
    }

    /// The name.
    pub fn name(&self) -> &N
        ensures { result.now ≡ self.now }
    {
        &self.name
    }

    /// The same data in memory of their own.
    pub fn flatten(&self, alloc: Global) -> Result<NameData<StoredName, T>, AllocError>
        ensures { IfOk result (λ d. d ≡ N.labels self.now) }
    {
        Ok(NameData {
            name: self.name.to_stored(alloc)?,
            of_type: PhantomData,
        })
    }
}

impl<N: Labelled + Drop> NameData<N, NsType> {
    /// The name of the server.
    pub fn nsdname(&self) -> &N
        ensures { result.now ≡ self.now }
    {
        &self.name
    }
}

impl<N: Labelled + Drop> NameData<N, MdType> {
    /// The host that takes the mail.
    pub fn madname(&self) -> &N
        ensures { result.now ≡ self.now }
    {
        &self.name
    }
}

impl<N: Labelled + Drop> NameData<N, MfType> {
    /// The host that forwards the mail.
    pub fn madname(&self) -> &N
        ensures { result.now ≡ self.now }
    {
        &self.name
    }
}

impl<N: Labelled + Drop> NameData<N, CnameType> {
    /// The name that the owner stands for.
    pub fn cname(&self) -> &N
        ensures { result.now ≡ self.now }
    {
        &self.name
    }
}

impl<N: Labelled + Drop> NameData<N, MbType> {
    /// The host that has the mailbox.
    pub fn madname(&self) -> &N
        ensures { result.now ≡ self.now }
    {
        &self.name
    }
}

impl<N: Labelled + Drop> NameData<N, MgType> {
    /// The mailbox in the group.
    pub fn mgmname(&self) -> &N
        ensures { result.now ≡ self.now }
    {
        &self.name
    }
}

impl<N: Labelled + Drop> NameData<N, MrType> {
    /// The mailbox's new name.
    pub fn newname(&self) -> &N
        ensures { result.now ≡ self.now }
    {
        &self.name
    }
}

impl<N: Labelled + Drop> NameData<N, PtrType> {
    /// The name that the owner points to.
    pub fn ptrdname(&self) -> &N
        ensures { result.now ≡ self.now }
    {
        &self.name
    }
}

impl<'m, T: NameType> NameData<ParsedName<'m>, T> {
    /// The name in the `len` octets at place `pos` of a message, which it fills exactly; else an error.
    #[tactic(auto, unfolding(dns_name::specs::Records::fields_at))]
    pub fn parse(
        message: &'m [u8],
        pos: usize,
        len: u16,
    ) -> Result<NameData<ParsedName<'m>, T>, ParseError>
        ensures found { IfOk result (λ d. fields_at (parts T.number) message.now (pos + len) pos ≡ Some (name_fields (λ n. n) d)) }
        ensures none { OnErr result (fields_at (parts T.number) message.now (pos + len) pos ≡ None) }
    {
        // For the proof: the number is that of a type whose data are one name.
        let _ = T::rtype();
        let (name, after) = ParsedName::parse(message, pos)?;
        if !ends_at(pos, len, after) {
            return Err(ParseError);
        }
        Ok(NameData {
            name,
            of_type: PhantomData,
        })
    }
}

impl<N: Labelled + Drop, T: NameType> RecordData for NameData<N, T> {
    ghost rtype = { λ d. T.number };

    ghost fields = { name_fields N.labels };

    fn rtype(&self) -> Rtype {
        T::rtype()
    }

    fn rdlen(&self) -> u16 {
        // For the proof: the number is that of a type whose data are one name.
        let _ = T::rtype();
        self.name.compose_len()
    }

    fn compose_rdata(&self, out: &mut Vec<u8>) -> Result<(), AllocError> {
        self.name.compose(out)
    }
}

impl<N: Labelled + Clone + Drop, T: NameType> Clone for NameData<N, T> {
    ghost is_clone = { N.is_clone };

    fn clone(&self) -> Result<NameData<N, T>, AllocError> {
        Ok(NameData {
            name: self.name.clone()?,
            of_type: PhantomData,
        })
    }
}
