// What a name below the apex is by its RRsets.

use zone_values::Rrset;

/// A name below the apex that isn't a plain one, with the RRsets that make it so.
#[derive(Drop)]
pub enum Special<'v> {
    /// A zone cut (RFC 1034, 4.2.1).
    Cut {
        /// The NS RRset.
        ns: &'v Rrset,
        /// The DS RRset, if there is one (RFC 4034, 5).
        ds: Option<&'v Rrset>,
    },
    /// An alias that isn't a zone cut: its CNAME RRset (RFC 1034, 3.6.2).
    Cname(&'v Rrset),
}
