//! Names as strings of octets that compare as the names do: a map of std over octets holds names in canonical order
//! (RFC 4034, 6.1), and a name lies at or below another where the one string begins with the other.
//!
//! The key of a name is its labels in lower case, from the right and without the root label, each ended by a 0; within
//! a label the octets 0 and 1 are written 1 1 and 1 2. `NameKey` is a key in place, `NameKeyRef` one whose octets are lent, as by
//! a map. For example:
//!
//! ```rust
//! use dns_name::NameRef;
//! use name_keys::NameKey;
//!
//! fn documentation_example(rt: HostRuntime) {
//!     let zone = NameRef::from_octets(b"\x07EXAMPLE\0").expect(&rt, "a name");
//!     let server = NameRef::from_octets(b"\x02ns\x07example\0").expect(&rt, "a name");
//!     let (above, below) = (NameKey::of(&zone), NameKey::of(&server));
//!     assert!(rt; below.as_slice() == b"example\0ns\0".as_slice());
//!     assert!(rt; below.is_under(&above) && !above.is_under(&below));
//! }
//! ```
#![tactic(auto)]

mod examples;
mod key;
mod key_octets;
mod laws;

pub use key::{KeyedName, NameKey, NameKeyRef};
pub use key_octets::KeyOctets;
