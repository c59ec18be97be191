// Numbers that have names.
ghost use Rattle.std.specs.Prelude.{◌≡◌, ◌%◌, ◌^◌, ◌<◌, ◌==◌, ◌||◌, Some};
ghost use Rattle.std.specs.Fmt.{decimal};
ghost use Rattle.dns_numbers.specs.Codes.{type_a, type_aaaa};
ghost use Rattle.dns_numbers.specs.CodeTexts.{rtype_text, class_text, opcode_text, rcode_text, tsig_rcode_text};

use std::fmt;
use std::marker::{Model, PhantomData};

/// What numbers with names are called.
pub trait CodeKind {
    /// The name of their type, which `Debug` prints.
    const NAME: &'static str;
}

/// A number of 16 bits with names, of the kind `K`. The mark stands first, so that comparisons are those of the numbers by computation.
#[derive(Clone, Copy, PartialEq, Eq, PartialOrd, Ord, Hash)]
pub struct Code<K>(PhantomData<K>, u16);

impl<K> Model for Code<K> {
    ghost use Rattle.std.specs.Prelude.{ℕ, ◌<◌, ◌^◌};

    ghost Value = { ℕ };

    ghost view = { λ c. c.1 };

    ghost invariant = { λ c. c.1 < 2 ^ 16 };

    ghost inverse = { λ n. (record {}, n) };
}

impl<K> Code<K> {
    /// The code of a number.
    pub fn from_int(value: u16) -> Code<K>
        ensures { result ≡ value }
    {
        Code(PhantomData, value)
    }

    /// The number as it is sent.
    pub fn to_int(self) -> u16
        ensures value { result ≡ self }
        ensures bound { result < 2 ^ 16 }
    {
        self.1
    }
}

impl<K: CodeKind> fmt::Debug for Code<K> {
    fn fmt<W: fmt::Write>(&self, f: &mut fmt::Formatter<W>) -> fmt::Result {
        f.debug_struct(K::NAME).field("value", &self.1).finish()
    }
}

/// A number of four bits with names, in the header of a message, of the kind `K`.
#[derive(Clone, Copy, PartialEq, Eq, PartialOrd, Ord, Hash)]
pub struct HeaderCode<K>(PhantomData<K>, u8);

impl<K> Model for HeaderCode<K> {
    ghost use Rattle.std.specs.Prelude.{ℕ, ◌<◌, ◌^◌};

    ghost Value = { ℕ };

    ghost view = { λ c. c.1 };

    ghost invariant = { λ c. c.1 < 2 ^ 4 };

    ghost inverse = { λ n. (record {}, n) };
}

impl<K> HeaderCode<K> {
    /// The code of a number's four low bits.
    pub fn from_int(value: u8) -> HeaderCode<K>
        ensures { result ≡ value % 16 }
    {
        HeaderCode(PhantomData, value % 16)
    }

    /// The number as it is sent.
    pub fn to_int(self) -> u8
        ensures value { result ≡ self }
        ensures bound { result < 2 ^ 4 }
    {
        self.1
    }
}

impl<K: CodeKind> fmt::Debug for HeaderCode<K> {
    fn fmt<W: fmt::Write>(&self, f: &mut fmt::Formatter<W>) -> fmt::Result {
        f.debug_struct(K::NAME).field("value", &self.1).finish()
    }
}

/// The type of a record or of a question (RFC 1035, 3.2.2).
pub type Rtype = Code<RtypeKind>;

/// Marks numbers that are types.
#[derive(Clone, Copy, PartialEq, Eq, PartialOrd, Ord, Hash)]
pub struct RtypeKind;

impl CodeKind for RtypeKind {
    const NAME: &'static str = "Rtype";
}

impl Rtype {
    /// An address of four octets (RFC 1035, 3.4.1).
    pub const A: Rtype = Code(PhantomData, 1);

    /// A name server (RFC 1035, 3.3.11).
    pub const NS: Rtype = Code(PhantomData, 2);

    /// A host that takes mail, obsolete (RFC 1035, 3.3.4).
    pub const MD: Rtype = Code(PhantomData, 3);

    /// A host that forwards mail, obsolete (RFC 1035, 3.3.5).
    pub const MF: Rtype = Code(PhantomData, 4);

    /// The name that this one stands for (RFC 1035, 3.3.1).
    pub const CNAME: Rtype = Code(PhantomData, 5);

    /// The start of a zone (RFC 1035, 3.3.13).
    pub const SOA: Rtype = Code(PhantomData, 6);

    /// A host that has a mailbox (RFC 1035, 3.3.3).
    pub const MB: Rtype = Code(PhantomData, 7);

    /// A mailbox of a mail group (RFC 1035, 3.3.6).
    pub const MG: Rtype = Code(PhantomData, 8);

    /// The new name of a mailbox (RFC 1035, 3.3.8).
    pub const MR: Rtype = Code(PhantomData, 9);

    /// The name that this one points to (RFC 1035, 3.3.12).
    pub const PTR: Rtype = Code(PhantomData, 12);

    /// The mailboxes of a mailing list or mailbox (RFC 1035, 3.3.7).
    pub const MINFO: Rtype = Code(PhantomData, 14);

    /// A host that takes mail (RFC 1035, 3.3.9).
    pub const MX: Rtype = Code(PhantomData, 15);

    /// A text (RFC 1035, 3.3.14).
    pub const TXT: Rtype = Code(PhantomData, 16);

    /// An address of sixteen octets (RFC 3596).
    pub const AAAA: Rtype = Code(PhantomData, 28);

    /// A host and port that offer a service (RFC 2782).
    pub const SRV: Rtype = Code(PhantomData, 33);

    /// The signer of a delegation (RFC 4034, 5).
    pub const DS: Rtype = Code(PhantomData, 43);

    /// The signature of a message (RFC 8945).
    pub const TSIG: Rtype = Code(PhantomData, 250);

    /// The question for the changes of a zone (RFC 1995).
    pub const IXFR: Rtype = Code(PhantomData, 251);

    /// The question for a whole zone (RFC 5936).
    pub const AXFR: Rtype = Code(PhantomData, 252);

    /// The question for all types (RFC 1035, 3.2.3).
    pub const ANY: Rtype = Code(PhantomData, 255);

    /// Whether records of this type are addresses, which may go with a referral as glue.
    pub fn is_glue(self) -> bool
        ensures { result ≡ (self == type_a || self == type_aaaa) }
    {
        self == Rtype::A || self == Rtype::AAAA
    }
}

impl fmt::Display for Rtype {
    ghost output = { λ c. Some (rtype_text c) };

    fn fmt<W: fmt::Write>(&self, f: &mut fmt::Formatter<W>) -> fmt::Result {
        let value = self.1;
        match *self {
            Rtype::A => write!(f, "A"),
            Rtype::NS => write!(f, "NS"),
            Rtype::MD => write!(f, "MD"),
            Rtype::MF => write!(f, "MF"),
            Rtype::CNAME => write!(f, "CNAME"),
            Rtype::SOA => write!(f, "SOA"),
            Rtype::MB => write!(f, "MB"),
            Rtype::MG => write!(f, "MG"),
            Rtype::MR => write!(f, "MR"),
            Rtype::PTR => write!(f, "PTR"),
            Rtype::MINFO => write!(f, "MINFO"),
            Rtype::MX => write!(f, "MX"),
            Rtype::TXT => write!(f, "TXT"),
            Rtype::AAAA => write!(f, "AAAA"),
            Rtype::SRV => write!(f, "SRV"),
            Rtype::DS => write!(f, "DS"),
            Rtype::TSIG => write!(f, "TSIG"),
            Rtype::IXFR => write!(f, "IXFR"),
            Rtype::AXFR => write!(f, "AXFR"),
            Rtype::ANY => write!(f, "ANY"),
            _ => write!(f, "TYPE{value}"),
        }
    }
}

/// The class of a record or of a question (RFC 1035, 3.2.4).
pub type Class = Code<ClassKind>;

/// Marks numbers that are classes.
#[derive(Clone, Copy, PartialEq, Eq, PartialOrd, Ord, Hash)]
pub struct ClassKind;

impl CodeKind for ClassKind {
    const NAME: &'static str = "Class";
}

impl Class {
    /// The Internet (RFC 1035, 3.2.4).
    pub const IN: Class = Code(PhantomData, 1);

    /// Any class (RFC 1035, 3.2.5).
    pub const ANY: Class = Code(PhantomData, 255);
}

impl fmt::Display for Class {
    ghost output = { λ c. Some (class_text c) };

    fn fmt<W: fmt::Write>(&self, f: &mut fmt::Formatter<W>) -> fmt::Result {
        let value = self.1;
        match *self {
            Class::IN => write!(f, "IN"),
            Class::ANY => write!(f, "ANY"),
            _ => write!(f, "CLASS{value}"),
        }
    }
}

/// What a message asks for, in four bits (RFC 1035, 4.1.1).
pub type Opcode = HeaderCode<OpcodeKind>;

/// Marks numbers that are opcodes.
#[derive(Clone, Copy, PartialEq, Eq, PartialOrd, Ord, Hash)]
pub struct OpcodeKind;

impl CodeKind for OpcodeKind {
    const NAME: &'static str = "Opcode";
}

impl Opcode {
    /// A question (RFC 1035, 4.1.1).
    pub const QUERY: Opcode = HeaderCode(PhantomData, 0);

    /// An inverse question (RFC 3425).
    pub const IQUERY: Opcode = HeaderCode(PhantomData, 1);

    /// The state of a server (RFC 1035, 4.1.1).
    pub const STATUS: Opcode = HeaderCode(PhantomData, 2);

    /// News of a zone (RFC 1996).
    pub const NOTIFY: Opcode = HeaderCode(PhantomData, 4);

    /// A change of a zone (RFC 2136).
    pub const UPDATE: Opcode = HeaderCode(PhantomData, 5);
}

impl fmt::Display for Opcode {
    ghost output = { λ c. Some (opcode_text c) };

    fn fmt<W: fmt::Write>(&self, f: &mut fmt::Formatter<W>) -> fmt::Result {
        let value = self.1;
        match *self {
            Opcode::QUERY => write!(f, "QUERY"),
            Opcode::IQUERY => write!(f, "IQUERY"),
            Opcode::STATUS => write!(f, "STATUS"),
            Opcode::NOTIFY => write!(f, "NOTIFY"),
            Opcode::UPDATE => write!(f, "UPDATE"),
            _ => write!(f, "OPCODE{value}"),
        }
    }
}

/// What became of a question, in four bits (RFC 1035, 4.1.1).
pub type Rcode = HeaderCode<RcodeKind>;

/// Marks numbers that are rcodes.
#[derive(Clone, Copy, PartialEq, Eq, PartialOrd, Ord, Hash)]
pub struct RcodeKind;

impl CodeKind for RcodeKind {
    const NAME: &'static str = "Rcode";
}

impl Rcode {
    /// No error (RFC 1035, 4.1.1).
    pub const NOERROR: Rcode = HeaderCode(PhantomData, 0);

    /// The message can't be read (RFC 1035, 4.1.1).
    pub const FORMERR: Rcode = HeaderCode(PhantomData, 1);

    /// The server can't answer (RFC 1035, 4.1.1).
    pub const SERVFAIL: Rcode = HeaderCode(PhantomData, 2);

    /// There is no such name (RFC 1035, 4.1.1).
    pub const NXDOMAIN: Rcode = HeaderCode(PhantomData, 3);

    /// This kind of question isn't answered (RFC 1035, 4.1.1).
    pub const NOTIMP: Rcode = HeaderCode(PhantomData, 4);

    /// The server doesn't want to answer (RFC 1035, 4.1.1).
    pub const REFUSED: Rcode = HeaderCode(PhantomData, 5);

    /// The name is there (RFC 2136, 2.2).
    pub const YXDOMAIN: Rcode = HeaderCode(PhantomData, 6);

    /// The RRset is there (RFC 2136, 2.2).
    pub const YXRRSET: Rcode = HeaderCode(PhantomData, 7);

    /// There is no such RRset (RFC 2136, 2.2).
    pub const NXRRSET: Rcode = HeaderCode(PhantomData, 8);

    /// The server has no authority, or the signature fails (RFC 2136, 2.2; RFC 8945, 3).
    pub const NOTAUTH: Rcode = HeaderCode(PhantomData, 9);

    /// The name isn't in the zone (RFC 2136, 2.2).
    pub const NOTZONE: Rcode = HeaderCode(PhantomData, 10);
}

impl fmt::Display for Rcode {
    ghost output = { λ c. Some (rcode_text c) };

    fn fmt<W: fmt::Write>(&self, f: &mut fmt::Formatter<W>) -> fmt::Result {
        let value = self.1;
        match *self {
            Rcode::NOERROR => write!(f, "NOERROR"),
            Rcode::FORMERR => write!(f, "FORMERR"),
            Rcode::SERVFAIL => write!(f, "SERVFAIL"),
            Rcode::NXDOMAIN => write!(f, "NXDOMAIN"),
            Rcode::NOTIMP => write!(f, "NOTIMP"),
            Rcode::REFUSED => write!(f, "REFUSED"),
            Rcode::YXDOMAIN => write!(f, "YXDOMAIN"),
            Rcode::YXRRSET => write!(f, "YXRRSET"),
            Rcode::NXRRSET => write!(f, "NXRRSET"),
            Rcode::NOTAUTH => write!(f, "NOTAUTH"),
            Rcode::NOTZONE => write!(f, "NOTZONE"),
            _ => write!(f, "RCODE{value}"),
        }
    }
}

/// The error of a TSIG record (RFC 8945, 3).
pub type TsigRcode = Code<TsigRcodeKind>;

/// Marks numbers that are errors of a TSIG.
#[derive(Clone, Copy, PartialEq, Eq, PartialOrd, Ord, Hash)]
pub struct TsigRcodeKind;

impl CodeKind for TsigRcodeKind {
    const NAME: &'static str = "TsigRcode";
}

impl TsigRcode {
    /// No error (RFC 1035, 4.1.1).
    pub const NOERROR: TsigRcode = Code(PhantomData, 0);

    /// The message can't be read (RFC 1035, 4.1.1).
    pub const FORMERR: TsigRcode = Code(PhantomData, 1);

    /// The signature is wrong (RFC 8945, 3).
    pub const BADSIG: TsigRcode = Code(PhantomData, 16);

    /// The key isn't known (RFC 8945, 3).
    pub const BADKEY: TsigRcode = Code(PhantomData, 17);

    /// The time is out of bounds (RFC 8945, 3).
    pub const BADTIME: TsigRcode = Code(PhantomData, 18);

    /// The signature is cut too short (RFC 8945, 3).
    pub const BADTRUNC: TsigRcode = Code(PhantomData, 22);
}

impl fmt::Display for TsigRcode {
    ghost output = { λ c. Some (tsig_rcode_text c) };

    fn fmt<W: fmt::Write>(&self, f: &mut fmt::Formatter<W>) -> fmt::Result {
        let value = self.1;
        match *self {
            TsigRcode::NOERROR => write!(f, "NOERROR"),
            TsigRcode::FORMERR => write!(f, "FORMERR"),
            TsigRcode::BADSIG => write!(f, "BADSIG"),
            TsigRcode::BADKEY => write!(f, "BADKEY"),
            TsigRcode::BADTIME => write!(f, "BADTIME"),
            TsigRcode::BADTRUNC => write!(f, "BADTRUNC"),
            _ => write!(f, "RCODE{value}"),
        }
    }
}

/// How long a record may be kept, in seconds (RFC 1035, 3.2.1).
#[derive(Clone, Copy, Debug, PartialEq, Eq, PartialOrd, Ord, Hash)]
pub struct Ttl {
    seconds: u32,
}

impl Model for Ttl {
    ghost use Rattle.std.specs.Prelude.{ℕ, ◌<◌, ◌^◌};

    ghost Value = { ℕ };

    ghost view = { λ t. t.seconds };

    ghost invariant = { λ t. t.seconds < 2 ^ 32 };

    ghost inverse = { λ n. record { seconds = n } };
}

impl Ttl {
    /// Not to be kept.
    pub const ZERO: Ttl = Ttl { seconds: 0 };

    /// So many seconds.
    pub fn from_int(seconds: u32) -> Ttl
        ensures { result ≡ seconds }
    {
        Ttl { seconds }
    }

    /// The seconds.
    pub fn to_int(self) -> u32
        ensures value { result ≡ self }
        ensures bound { result < 2 ^ 32 }
    {
        self.seconds
    }
}

impl fmt::Display for Ttl {
    ghost output = { λ t. Some (decimal t) };

    fn fmt<W: fmt::Write>(&self, f: &mut fmt::Formatter<W>) -> fmt::Result {
        let seconds = self.seconds;
        write!(f, "{seconds}")
    }
}
