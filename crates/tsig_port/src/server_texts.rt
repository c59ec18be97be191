// Refusals of requests as text.
ghost use Rattle.std.specs.Prelude.{◌≡◌, ◌++◌, Some, codes};
ghost use Rattle.dns_numbers.specs.CodeTexts.{tsig_rcode_text};
ghost use Rattle.tsig_port.specs.States.{error_of};

use crate::server::ServerError;
use std::fmt;
use tsig_keys::KeyRef;

impl<K: KeyRef> fmt::Display for ServerError<K> {
    ghost output = { λ e. Some (tsig_rcode_text (error_of e)) };

    /// The name of the TSIG error (RFC 8945, 3).
    fn fmt<W: fmt::Write>(&self, f: &mut fmt::Formatter<W>) -> fmt::Result {
        let error = self.error();
        write!(f, "{error}")
    }
}

impl<K: KeyRef> fmt::Debug for ServerError<K> {
    ghost debug_output = { λ e. Some (codes "ServerError(" ++ tsig_rcode_text (error_of e) ++ codes ")") };

    /// `ServerError(NAME)`, without what its reply is made of.
    fn fmt<W: fmt::Write>(&self, f: &mut fmt::Formatter<W>) -> fmt::Result {
        write!(f, "ServerError({self})")
    }
}
