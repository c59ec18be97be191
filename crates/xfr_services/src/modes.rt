// The kinds of transfer.
ghost use Rattle.std.specs.Prelude.{◌≡◌};
ghost use Rattle.xfr_services.specs.Modes as modes;

use dns_numbers::Rtype;
use std::fmt;

/// Which kind of transfer is asked for.
#[derive(Clone, Copy, Debug, PartialEq, Eq)]
pub enum XfrMode {
    /// The whole zone (RFC 5936).
    Axfr,
    /// What is newer than a serial (RFC 1995).
    Ixfr,
}

impl XfrMode {
    /// The kind that a type of question asks for (RFC 5936, 2.1; RFC 1995, 3).
    pub fn from_rtype(rtype: Rtype) -> Option<XfrMode>
        ensures { result ≡ modes.mode_of_type rtype }
    {
        if rtype == Rtype::AXFR {
            Some(XfrMode::Axfr)
        } else if rtype == Rtype::IXFR {
            Some(XfrMode::Ixfr)
        } else {
            None
        }
    }

    /// The type of the question that asks for it.
    pub fn rtype(self) -> Rtype
        ensures { result ≡ modes.type_of_mode self }
    {
        match self {
            XfrMode::Axfr => Rtype::AXFR,
            XfrMode::Ixfr => Rtype::IXFR,
        }
    }

    /// Whether it is an incremental transfer.
    pub fn is_ixfr(self) -> bool
        ensures { result ≡ modes.is_ixfr self }
    {
        matches!(self, XfrMode::Ixfr)
    }
}

impl fmt::Display for XfrMode {
    ghost use Rattle.std.specs.Prelude.{Some};
    ghost use Rattle.xfr_services.specs.Modes.{mode_text};

    ghost output = { λ m. Some (mode_text m) };

    fn fmt<W: fmt::Write>(&self, f: &mut fmt::Formatter<W>) -> fmt::Result {
        match self {
            XfrMode::Axfr => write!(f, "AXFR"),
            XfrMode::Ixfr => write!(f, "IXFR"),
        }
    }
}
