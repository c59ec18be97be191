// Digests under way, and HMAC (RFC 2104) over them.
ghost use Rattle.std.specs.Prelude.{◌≡◌, ◌==◌, ◌++◌, ◌-◌, ◌≤◌, ℕ, List, [], length, take, bit_xor, map, nat_eq, replicate};
ghost use Rattle.std.specs.List.{starts_with};
ghost use Rattle.std.specs.Cmp.Lexicographic.{pointwise};
ghost use Rattle.tsig_keys.specs.Hmac.{hmac, digest, block_len, block_key};
ghost use Rattle.tsig_keys.specs.HmacState.{HoldsHash, HoldsHmac};
ghost use Rattle.tsig_keys.specs.declared.algorithms.Algorithm.{Algorithm};

use crate::Algorithm;
use sha1::Sha1;
use sha2::{Digest, Sha256, Sha384, Sha512};
use std::convert::AsSlice;
use std::marker::Model;

/// A MAC in place, of up to 64 octets, whole or truncated (RFC 8945, 4.3 and 5.2.2.1).
#[derive(Drop)]
pub struct Mac {
    octets: [u8; 64],
    len: usize,
}

impl Model for Mac {
    ghost use Rattle.std.specs.Prelude.{ℕ, ◌≤◌, List, take};

    ghost Value = { List ℕ };

    ghost view = { λ m. take m.len m.octets };

    ghost invariant = { λ m. m.len ≤ 64 };
}

impl Mac {
    /// The MAC of these octets, of which there are at most 64.
    pub fn from_octets(octets: &[u8]) -> Mac
        requires { length octets.now ≤ 64 }
        ensures { result ≡ octets.now }
    {
        let mut kept = [0; 64];
        kept[..octets.len()].copy_from_slice(octets);
        Mac {
            octets: kept,
            len: octets.len(),
        }
    }

    /// The octets, in the order in which they are sent.
    pub fn as_slice(&self) -> &[u8]
        ensures octets { result.now ≡ self.now }
        ensures short { length self.now ≤ 64 }
    {
        &self.octets[..self.len]
    }

    /// The first `len` octets, or all where there are fewer (RFC 8945, 5.2.2.1).
    pub fn truncated(&self, len: usize) -> Mac
        ensures { result ≡ take len self.now }
    {
        let octets = self.as_slice();
        if len < octets.len() {
            return Mac::from_octets(&octets[..len]);
        }
        Mac::from_octets(octets)
    }

    /// Whether it begins with these octets, as the whole of a received MAC does (RFC 8945, 5.2.2.1). They are compared in one pass,
    /// which no octet ends early, so that its time doesn't tell how many are right. That it takes the same time lies outside the proof.
    pub fn begins_with(&self, octets: &[u8]) -> bool
        ensures { result ≡ starts_with nat_eq self.now octets.now }
    {
        let own = self.as_slice();
        if own.len() < octets.len() {
            return false;
        }
        differences(octets, &own[..octets.len()]) == 0
    }
}

/// The differences of the octets at the same places, all joined: 0 exactly where they are alike.
fn differences(octets: &[u8], others: &[u8]) -> u8
    requires { length octets.now ≡ length others.now }
    ensures { (result == 0) ≡ pointwise nat_eq octets.now others.now }
{
    let mut joined = 0;
    for i in 0..octets.len() {
        joined |= octets[i] ^ others[i];
    }
    joined
}

impl AsSlice<u8> for Mac {
    ghost items = { λ m. m };

    fn as_slice(&self) -> &[u8] {
        Mac::as_slice(self)
    }
}

/// A digest of one of the four algorithms that is under way.
#[derive(Drop)]
pub enum Hasher {
    Sha1(Sha1),
    Sha256(Sha256),
    Sha384(Sha384),
    Sha512(Sha512),
}

impl Hasher {
    /// A digest of no octets yet.
    pub fn new(algorithm: Algorithm) -> Hasher
        ensures { HoldsHash result algorithm [] }
    {
        match algorithm {
            Algorithm::Sha1 => Hasher::Sha1(Sha1::new()),
            Algorithm::Sha256 => Hasher::Sha256(Sha256::new()),
            Algorithm::Sha384 => Hasher::Sha384(Sha384::new()),
            Algorithm::Sha512 => Hasher::Sha512(Sha512::new()),
        }
    }

    /// The same digest under way again.
    pub fn duplicate(&self) -> Hasher
        ensures { result ≡ self.now }
    {
        match self {
            Hasher::Sha1(hasher) => Hasher::Sha1(hasher.clone().unwrap()),
            Hasher::Sha256(hasher) => Hasher::Sha256(hasher.clone().unwrap()),
            Hasher::Sha384(hasher) => Hasher::Sha384(hasher.clone().unwrap()),
            Hasher::Sha512(hasher) => Hasher::Sha512(hasher.clone().unwrap()),
        }
    }

    /// Takes more octets.
    pub fn update(&mut self, octets: &[u8])
        ensures { (algorithm : Algorithm) (text : List ℕ) → HoldsHash self.old algorithm text → HoldsHash self.new algorithm (text ++ octets.now) }
    {
        match self {
            Hasher::Sha1(hasher) => hasher.update(octets),
            Hasher::Sha256(hasher) => hasher.update(octets),
            Hasher::Sha384(hasher) => hasher.update(octets),
            Hasher::Sha512(hasher) => hasher.update(octets),
        }
    }

    /// The digest of the octets taken.
    pub fn finish(self) -> Mac
        ensures { (algorithm : Algorithm) (text : List ℕ) → HoldsHash self algorithm text → result ≡ digest algorithm text }
    {
        match self {
            Hasher::Sha1(hasher) => Mac::from_octets(&hasher.finalize()),
            Hasher::Sha256(hasher) => Mac::from_octets(&hasher.finalize()),
            Hasher::Sha384(hasher) => Mac::from_octets(&hasher.finalize()),
            Hasher::Sha512(hasher) => Mac::from_octets(&hasher.finalize()),
        }
    }
}

/// Up to 128 octets in a block, with zeros after them.
fn filled_up(octets: &[u8]) -> [u8; 128]
    requires { length octets.now ≤ 128 }
    ensures { result ≡ octets.now ++ replicate (128 - length octets.now) 0 }
{
    let mut block = [0; 128];
    block[..octets.len()].copy_from_slice(octets);
    block
}

/// The key filled up to a block of the algorithm's digest, with zeros after it (RFC 2104, 2).
pub fn block_of(algorithm: Algorithm, key: &[u8]) -> [u8; 128]
    ensures { take (block_len algorithm) result ≡ block_key algorithm key.now }
{
    if key.len() <= algorithm.block_len() {
        return filled_up(key);
    }
    let mut hasher = Hasher::new(algorithm);
    hasher.update(key);
    let digest = hasher.finish();
    filled_up(digest.as_slice())
}

/// Each octet XOR the same one.
fn mask(octets: &mut [u8], mask: u8)
    ensures { octets.new ≡ map (λ k. bit_xor k mask) octets.old }
{
    for octet in octets.iter_mut() {
        *octet ^= mask;
    }
}

/// A digest that has taken the block of a key, each octet XOR the same one (RFC 2104, 2).
fn padded(algorithm: Algorithm, block: &[u8; 128], octet: u8) -> Hasher
    ensures { HoldsHash result algorithm (map (λ k. bit_xor k octet) (take (block_len algorithm) block.now)) }
{
    let mut pad = *block;
    mask(&mut pad, octet);
    let mut hasher = Hasher::new(algorithm);
    hasher.update(&pad[..algorithm.block_len()]);
    hasher
}

/// A MAC by a shared key that is under way (RFC 2104, 2).
#[derive(Drop)]
pub struct Hmac {
    inner: Hasher,
    outer: Hasher,
}

impl Hmac {
    /// A MAC by the key, of no octets yet. The key may have any length.
    pub fn new(algorithm: Algorithm, key: &[u8]) -> Hmac
        ensures { HoldsHmac result algorithm key.now [] }
    {
        let block = block_of(algorithm, key);
        let inner = padded(algorithm, &block, 0x36);
        let outer = padded(algorithm, &block, 0x5c);
        Hmac { inner, outer }
    }

    /// The same MAC under way again.
    pub fn duplicate(&self) -> Hmac
        ensures { result ≡ self.now }
    {
        Hmac {
            inner: self.inner.duplicate(),
            outer: self.outer.duplicate(),
        }
    }

    /// Takes more octets.
    pub fn update(&mut self, octets: &[u8])
        ensures { (algorithm : Algorithm) (key text : List ℕ) → HoldsHmac self.old algorithm key text → HoldsHmac self.new algorithm key (text ++ octets.now) }
    {
        self.inner.update(octets);
    }

    /// The whole MAC of the octets taken.
    #[tactic(auto, unfolding(crate::specs::Hmac::hmac))]
    pub fn finish(self) -> Mac
        ensures { (algorithm : Algorithm) (key text : List ℕ) → HoldsHmac self algorithm key text → result ≡ hmac algorithm key text }
    {
        let mut outer = self.outer;
        let inner = self.inner.finish();
        outer.update(inner.as_slice());
        outer.finish()
    }
}
