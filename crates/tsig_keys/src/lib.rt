//! TSIG's algorithms and keys (RFC 8945, 1.2 and 6).
//!
//! A [`Key`] is a secret that two sides share, with the algorithm of its MACs and the lengths that these may have; its MACs are
//! [`Hmac`]s (RFC 2104). A server finds the key of a request in a [`KeyStore`]: one key, or a map of keys by name and algorithm.
//! [`Key::generate`] makes a new key of the octets of a [`KeySource`], such as a random number generator.
#![tactic(auto)]

mod algorithms;
mod digests;
mod errors;
mod examples;
mod keys;
mod laws;
mod sources;
mod stores;

pub use algorithms::Algorithm;
pub use digests::{Hmac, Mac};
pub use errors::{AlgorithmError, FillError, GenerateKeyError, NewKeyError};
pub use keys::{Key, KeyRef};
pub use sources::{FromRng, KeySource, MemoryKeySource};
pub use stores::KeyStore;
