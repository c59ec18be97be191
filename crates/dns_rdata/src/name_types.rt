// The types whose data are one domain name.

use dns_numbers::Rtype;

/// A type whose data are one domain name.
pub trait NameType {
    ghost use Rattle.std.specs.Prelude.{◌≡◌, ℕ, IsTrue};
    ghost use Rattle.dns_name.specs.Records.{is_one_name};

    ghost number: { ℕ };

    /// The type.
    fn rtype() -> Rtype
        ensures value { result ≡ number }
        ensures one_name { IsTrue (is_one_name number) };
}

/// NS (RFC 1035, 3.3.11).
pub struct NsType;

impl NameType for NsType {
    ghost number = { 2 };

    fn rtype() -> Rtype {
        Rtype::NS
    }
}

/// MD (RFC 1035, 3.3.4).
pub struct MdType;

impl NameType for MdType {
    ghost number = { 3 };

    fn rtype() -> Rtype {
        Rtype::MD
    }
}

/// MF (RFC 1035, 3.3.5).
pub struct MfType;

impl NameType for MfType {
    ghost number = { 4 };

    fn rtype() -> Rtype {
        Rtype::MF
    }
}

/// CNAME (RFC 1035, 3.3.1).
pub struct CnameType;

impl NameType for CnameType {
    ghost number = { 5 };

    fn rtype() -> Rtype {
        Rtype::CNAME
    }
}

/// MB (RFC 1035, 3.3.3).
pub struct MbType;

impl NameType for MbType {
    ghost number = { 7 };

    fn rtype() -> Rtype {
        Rtype::MB
    }
}

/// MG (RFC 1035, 3.3.6).
pub struct MgType;

impl NameType for MgType {
    ghost number = { 8 };

    fn rtype() -> Rtype {
        Rtype::MG
    }
}

/// MR (RFC 1035, 3.3.8).
pub struct MrType;

impl NameType for MrType {
    ghost number = { 9 };

    fn rtype() -> Rtype {
        Rtype::MR
    }
}

/// PTR (RFC 1035, 3.3.12).
pub struct PtrType;

impl NameType for PtrType {
    ghost number = { 12 };

    fn rtype() -> Rtype {
        Rtype::PTR
    }
}
