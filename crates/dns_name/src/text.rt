// Names as text (RFC 1035, 5.1).
ghost use Rattle.std.specs.Prelude.{Some, ◌++◌, codes};
ghost use Rattle.dns_name.specs.Names.{name_text};

use crate::name::Name;
use crate::parsed::ParsedName;
use crate::to_name::Labelled;
use std::convert::AsSlice;
use std::fmt;

impl<Octs: AsSlice<u8>> fmt::Display for Name<Octs> {
    ghost output = { λ n. Some (name_text n) };

    fn fmt<W: fmt::Write>(&self, f: &mut fmt::Formatter<W>) -> fmt::Result {
        let Some((first, mut rest)) = self.borrowed().split_first() else {
            return write!(f, ".");
        };
        write!(f, "{first}")?;
        while let Some((label, tail)) = rest.split_first() {
            write!(f, ".{label}")?;
            rest = tail;
        }
        Ok(())
    }
}

impl<'m> fmt::Display for ParsedName<'m> {
    ghost output = { λ n. Some (name_text n) };

    fn fmt<W: fmt::Write>(&self, f: &mut fmt::Formatter<W>) -> fmt::Result {
        let name = self.to_key_name();
        write!(f, "{name}")
    }
}

impl<Octs: AsSlice<u8>> fmt::Debug for Name<Octs> {
    ghost debug_output = { λ n. Some (codes "Name(" ++ name_text n ++ codes ")") };

    fn fmt<W: fmt::Write>(&self, f: &mut fmt::Formatter<W>) -> fmt::Result {
        write!(f, "Name({self})")
    }
}

impl<'m> fmt::Debug for ParsedName<'m> {
    ghost debug_output = { λ n. Some (codes "ParsedName(" ++ name_text n ++ codes ")") };

    fn fmt<W: fmt::Write>(&self, f: &mut fmt::Formatter<W>) -> fmt::Result {
        write!(f, "ParsedName({self})")
    }
}
