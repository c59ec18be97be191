// Comparisons of names as they are spelled.
ghost use Rattle.std.specs.Prelude.{◌≡◌, length};
ghost use Rattle.std.specs.List.{ends_with};
ghost use Rattle.std.specs.Str.{bytes_eq};
ghost use Rattle.dns_name.specs.Names.{labels_eq, spelling_cmp};

use crate::name::{KeyName, NameRef};
use std::cmp::Ordering;

/// Whether the names are octet for octet the same.
pub fn is_spelled_alike(a: &KeyName, b: &KeyName) -> bool
    ensures { result ≡ labels_eq a.now b.now }
{
    a.as_slice() == b.as_slice()
}

/// Whether the labels of `a` end with those of `base`, octet for octet.
pub fn is_spelled_under(a: &KeyName, base: &KeyName) -> bool
    ensures { result ≡ ends_with bytes_eq a.now base.now }
{
    let (name, end) = (a.borrowed(), base.borrowed());
    let more = name.label_count().saturating_sub(end.label_count());
    end.as_slice() == name.without_first(more).as_slice()
}

/// The order of the names by their labels from the right, each as a string of octets, a missing label first. Of names in lower case
/// this is canonical order (RFC 4034, 6.1).
pub fn compare_spelling(a: &KeyName, b: &KeyName) -> Ordering
    ensures { result ≡ spelling_cmp a.now b.now }
{
    let (left, right) = (a.borrowed(), b.borrowed());
    let (m, n) = (left.label_count(), right.label_count());
    let common = m.min(n);
    let order = compare_equally_long(
        &left.without_first(m - common),
        &right.without_first(n - common),
    );
    order.then(m.cmp(&n))
}

/// The same order for names of equally many labels: the last pair of different labels decides.
fn compare_equally_long(a: &NameRef<'_>, b: &NameRef<'_>) -> Ordering
    requires { length a.now ≡ length b.now }
    ensures { result ≡ spelling_cmp a.now b.now }
{
    let (mut left, mut right) = (a.borrowed(), b.borrowed());
    let mut last = Ordering::Equal;
    while let Some((x, left_tail)) = left.split_first()
        && let Some((y, right_tail)) = right.split_first()
    {
        last = x.as_slice().cmp(y.as_slice()).then(last);
        left = left_tail;
        right = right_tail;
    }
    last
}
