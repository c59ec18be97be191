// Labels as text (RFC 1035, 5.1).
ghost use Rattle.std.specs.Prelude.{Some, flat_map};
ghost use Rattle.dns_name.specs.LabelText.{octet_text};

use crate::label::Label;
use crate::owned::OwnedLabel;
use std::fmt;

/// An octet of a label: space, dot and backslash after a backslash, and what doesn't print as three digits.
#[derive(Clone, Copy)]
struct Octet {
    value: u8,
}

impl fmt::Display for Octet {
    ghost output = { λ o. Some (octet_text o.value) };

    fn fmt<W: fmt::Write>(&self, f: &mut fmt::Formatter<W>) -> fmt::Result {
        let value = self.value;
        let shown = char::from(value);
        if value == b' ' || value == b'.' || value == b'\\' {
            write!(f, "\\{shown}")
        } else if 32 < value && value < 127 {
            write!(f, "{shown}")
        } else {
            let hundreds = char::from(48 + value / 100);
            let tens = char::from(48 + value / 10 % 10);
            let units = char::from(48 + value % 10);
            write!(f, "\\{hundreds}{tens}{units}")
        }
    }
}

impl<'a> fmt::Display for Label<'a> {
    ghost output = { λ l. Some (flat_map octet_text l) };

    fn fmt<W: fmt::Write>(&self, f: &mut fmt::Formatter<W>) -> fmt::Result {
        for value in self.as_slice() {
            let octet = Octet { value: *value };
            write!(f, "{octet}")?;
        }
        Ok(())
    }
}

impl fmt::Display for OwnedLabel {
    ghost output = { λ l. Some (flat_map octet_text l) };

    fn fmt<W: fmt::Write>(&self, f: &mut fmt::Formatter<W>) -> fmt::Result {
        let label = self.as_label();
        write!(f, "{label}")
    }
}
