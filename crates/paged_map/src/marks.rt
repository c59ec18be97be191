// Places among keys in order, by what stands before them.
ghost use Rattle.std.specs.Prelude.{◌≡◌, true, false};
ghost use Rattle.std.specs.Ordering.{is_eq};
ghost use Rattle.std.specs.declared.cmp.Ordering.TheVariants.{Equal, Greater, Less};
ghost use Rattle.paged_map.specs.Octets.{octets_cmp, passes, reaches};

use std::cmp::Ordering;

/// A place among keys in order.
#[derive(Clone, Copy)]
pub(crate) enum Mark<'k> {
    /// Before a key, and so after each that is less.
    Before(&'k [u8]),
    /// After a key.
    After(&'k [u8]),
    /// After all keys that begin with a string.
    Under(&'k [u8]),
}

/// How a string of octets compares to another, eight octets at a time and then octet by octet.
pub fn compare<'x>(left: &'x [u8], right: &'x [u8]) -> Ordering
    ensures { result ≡ octets_cmp left.now right.now }
{
    let (mut ones, mut others) = (left, right);
    while let Some((one, more)) = ones.split_first_chunk::<8>()
        && let Some((other, others_more)) = others.split_first_chunk::<8>()
    {
        let order = compare_words(one, other);
        if order.is_ne() {
            return order;
        }
        ones = more;
        others = others_more;
    }
    compare_octets(ones, others)
}

/// The same of eight octets, the first of which weighs most.
#[tactic(auto, using(crate::proofs::Words::word_order))]
fn compare_words<'x>(left: &'x [u8; 8], right: &'x [u8; 8]) -> Ordering
    ensures { result ≡ octets_cmp left.now right.now }
{
    u64::from_be_bytes(*left).cmp(&u64::from_be_bytes(*right))
}

/// The same octet by octet.
fn compare_octets<'x>(left: &'x [u8], right: &'x [u8]) -> Ordering
    ensures { result ≡ octets_cmp left.now right.now }
{
    let common = left.len().min(right.len());
    for i in 0..common {
        if left[i] != right[i] {
            return left[i].cmp(&right[i]);
        }
    }
    left.len().cmp(&right.len())
}

/// Whether two strings of octets are the same.
pub(crate) fn is_same<'x>(left: &'x [u8], right: &'x [u8]) -> bool
    ensures { result ≡ is_eq (octets_cmp left.now right.now) }
{
    compare(left, right).is_eq()
}

impl<'k> Mark<'k> {
    /// The octets beside which it stands.
    pub(crate) fn octets(self) -> &'k [u8] {
        match self {
            Mark::Before(key) => key,
            Mark::After(key) => key,
            Mark::Under(key) => key,
        }
    }

    /// Whether it stands after a key.
    pub(crate) fn passes(self, key: &[u8]) -> bool
        ensures { result ≡ passes self.entry key.now }
    {
        match self {
            Mark::Before(mark) => compare(mark, key).is_gt(),
            Mark::After(mark) => !compare(mark, key).is_lt(),
            Mark::Under(mark) => compare(mark, key).is_gt() || key.starts_with(mark),
        }
    }

    /// `Greater` where it stands after a key, `Equal` where it stands just before that, and else `Less`.
    pub(crate) fn beside(self, key: &[u8]) -> Ordering
        ensures past { result ≡ Greater → passes self.entry key.now ≡ true }
        ensures before { result ≡ Equal → (passes self.entry key.now ≡ false) × (reaches self.entry key.now ≡ true) }
        ensures ahead { result ≡ Less → passes self.entry key.now ≡ false }
    {
        match self {
            Mark::Before(mark) => compare(mark, key),
            _ if self.passes(key) => Ordering::Greater,
            _ => Ordering::Less,
        }
    }

    /// Whether a page that begins at a key reaches to it.
    pub(crate) fn reaches(self, key: &[u8]) -> bool
        ensures { result ≡ reaches self.entry key.now }
    {
        match self {
            Mark::Before(mark) => !compare(mark, key).is_lt(),
            Mark::After(mark) => !compare(mark, key).is_lt(),
            Mark::Under(mark) => compare(mark, key).is_gt() || key.starts_with(mark),
        }
    }
}
