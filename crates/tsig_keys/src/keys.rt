// Shared keys (RFC 8945, 1.2).
ghost use Rattle.std.specs.Prelude.{◌≡◌, ℕ, List, [], Option, Some, Ok, take, length, IsTrue, IfOk, IfErr};
ghost use Rattle.dns_name.specs.Names.{name_text};
ghost use Rattle.tsig_keys.specs.Hmac.{block_len, native_len};
ghost use Rattle.tsig_keys.specs.HmacState.{HoldsHmac};
ghost use Rattle.tsig_keys.specs.TsigKeys.{new_key, is_mac_len, compose_len, key_debug};
ghost use Rattle.tsig_keys.specs.KeySources.{RefusesKey};

use crate::Algorithm;
use crate::digests::{Hmac, block_of};
use crate::errors::{GenerateKeyError, NewKeyError};
use crate::sources::KeySource;
use dns_name::{KeyName, Labelled, ToName};
use std::alloc::{AllocError, Global};
use std::convert::AsRef;
use std::fmt;
use std::marker::Model;
use std::sync::Arc;

/// A shared key. Its secret is filled up to a block of the algorithm's digest, by which the MACs are the same (RFC 2104, 2).
#[derive(Drop)]
pub struct Key {
    name: KeyName,
    algorithm: Algorithm,
    block: [u8; 128],
    min_mac_len: usize,
    signing_len: usize,
}

impl Model for Key {
    ghost use Rattle.std.specs.Prelude.{ℕ, List, IsTrue, take};
    ghost use Rattle.tsig_keys.specs.Hmac.{block_len};
    ghost use Rattle.tsig_keys.specs.TsigKeys.{TsigKey, is_mac_len};

    ghost Value = { TsigKey };

    ghost view = { λ k. record { name = k.name; algorithm = k.algorithm; secret = take (block_len k.algorithm) k.block; min_mac_len = k.min_mac_len; signing_len = k.signing_len } };

    ghost invariant = { λ k. IsTrue (is_mac_len k.algorithm k.min_mac_len) × IsTrue (is_mac_len k.algorithm k.signing_len) };
}

impl Key {
    /// The key of a secret of any length. `min_mac_len` is how many octets a MAC must have that is taken, `signing_len` how many
    /// octets of its MACs are sent: at least 10, at least half of the whole MAC, at most all of it, and all where none is given.
    /// `BadMinMacLen` and then `BadSigningLen` where one is out of these bounds (RFC 8945, 5.2.2.1).
    pub fn new(
        algorithm: Algorithm,
        secret: &[u8],
        name: KeyName,
        min_mac_len: Option<usize>,
        signing_len: Option<usize>,
    ) -> Result<Key, NewKeyError>
        ensures { result ≡ new_key algorithm secret.now name min_mac_len signing_len }
    {
        let min_mac_len = min_mac_len.unwrap_or(algorithm.native_len());
        let signing_len = signing_len.unwrap_or(algorithm.native_len());
        if !algorithm.within_len_bounds(min_mac_len) {
            return Err(NewKeyError::BadMinMacLen);
        }
        if !algorithm.within_len_bounds(signing_len) {
            return Err(NewKeyError::BadSigningLen);
        }
        Ok(Key {
            name,
            algorithm,
            block: block_of(algorithm, secret),
            min_mac_len,
            signing_len,
        })
    }

    /// A new key of the next octets of a source, as many as a whole MAC has, and these octets. The lengths are as for `new`, and
    /// tested before the source is asked: `BadMinMacLen`, then `BadSigningLen`. `GenerationFailed` where the source failed.
    pub fn generate<S: KeySource>(
        alloc: Global,
        algorithm: Algorithm,
        name: KeyName,
        min_mac_len: Option<usize>,
        signing_len: Option<usize>,
        source: &mut S,
    ) -> Result<(Key, Vec<u8>), GenerateKeyError>
        ensures len { IfOk result (λ made. length made.1.items ≡ native_len algorithm) }
        ensures octets { IfOk result (λ made. S.Gives source.old made.1.items source.new) }
        ensures steady { IfOk result (λ made. S.faults source.new ≡ S.faults source.old) }
        ensures key { IfOk result (λ made. new_key algorithm made.1.items name min_mac_len signing_len ≡ Ok made.0) }
        ensures refusal { IfErr result (λ e. RefusesKey S.Gives S.faults (new_key algorithm [] name min_mac_len signing_len) source.old e source.new) }
    {
        let mut key = Key::new(algorithm, &[], name, min_mac_len, signing_len)?;
        let mut octets = vec![in alloc; 0; algorithm.native_len()]?;
        source.fill(&mut octets)?;
        key.block = block_of(algorithm, &octets);
        Ok((key, octets))
    }

    /// The algorithm of its MACs.
    pub fn algorithm(&self) -> Algorithm
        ensures { result ≡ self.now.algorithm }
    {
        self.algorithm
    }

    /// The name by which the two sides know it.
    pub fn name(&self) -> &KeyName
        ensures { result.now ≡ self.now.name }
    {
        &self.name
    }

    /// The octets of a whole MAC.
    pub fn native_len(&self) -> usize
        ensures { result ≡ native_len self.now.algorithm }
    {
        self.algorithm.native_len()
    }

    /// How many octets a MAC must have that is taken.
    pub fn min_mac_len(&self) -> usize
        ensures { result ≡ self.now.min_mac_len }
    {
        self.min_mac_len
    }

    /// How many octets of its MACs are sent.
    pub fn signing_len(&self) -> usize
        ensures len { result ≡ self.now.signing_len }
        ensures bounds { IsTrue (is_mac_len self.now.algorithm self.now.signing_len) }
    {
        self.signing_len
    }

    /// How many octets the TSIG record has that this key adds to a message, other data aside (RFC 8945, 4.2).
    pub fn compose_len(&self) -> u16
        ensures { result ≡ compose_len self.now }
    {
        self.name.compose_len()
            + self.algorithm.to_name().compose_len()
            + 26
            + self.signing_len as u16
    }

    /// The same key again, as `clone` gives it, but without an answer for want of memory.
    pub fn duplicate(&self) -> Key
        ensures { result ≡ self.now }
    {
        Key {
            name: self.name.duplicate(),
            algorithm: self.algorithm,
            block: self.block,
            min_mac_len: self.min_mac_len,
            signing_len: self.signing_len,
        }
    }

    /// A MAC by this key, of no octets yet.
    pub fn hmac(&self) -> Hmac
        ensures { HoldsHmac result self.now.algorithm self.now.secret [] }
    {
        Hmac::new(self.algorithm, &self.block[..self.algorithm.block_len()])
    }
}

/// The same key again; it takes no memory, so `clone` is Ok always.
impl Clone for Key {
    ghost use Rattle.std.specs.Prelude.{◌≡◌, ⊤};

    ghost is_clone = { λ k copy. copy ≡ k };

    ghost is_infallible = { λ _. ⊤ };

    fn clone(&self) -> Result<Key, AllocError> {
        Ok(self.duplicate())
    }
}

/// The key's name.
impl fmt::Display for Key {
    ghost output = { λ k. Some (name_text k.name) };

    fn fmt<W: fmt::Write>(&self, f: &mut fmt::Formatter<W>) -> fmt::Result {
        let name = &self.name;
        write!(f, "{name}")
    }
}

/// The name and the algorithm; the secret isn't told.
impl fmt::Debug for Key {
    ghost debug_output = { λ k. Some (key_debug k.name k.algorithm) };

    fn fmt<W: fmt::Write>(&self, f: &mut fmt::Formatter<W>) -> fmt::Result {
        let name = &self.name;
        let algorithm = self.algorithm;
        write!(f, "Key {{ name: {name}, algorithm: {algorithm}, .. }}")
    }
}

/// What a key is kept by: the key itself, or a pointer to it.
pub trait KeyRef: AsRef<Key> + Drop {
    ghost use Rattle.std.specs.Prelude.{◌≡◌};
    ghost use Rattle.tsig_keys.specs.TsigKeys.{TsigKey};

    ghost the_key: { Self → TsigKey };

    /// The key.
    fn key_ref(&self) -> &Key
        ensures { result.now ≡ the_key self.now };
}

impl AsRef<Key> for Key {
    fn as_ref(&self) -> &Key
        ensures { result.now ≡ self.now }
    {
        self
    }
}

impl KeyRef for Key {
    ghost the_key = { λ k. k };

    fn key_ref(&self) -> &Key {
        self
    }
}

impl KeyRef for Arc<Key> {
    ghost use Rattle.std.specs.Arc.{arc_value};

    ghost the_key = { λ a. arc_value a };

    fn key_ref(&self) -> &Key {
        self
    }
}
