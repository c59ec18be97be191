// Where names stand to one another.
ghost use Rattle.std.specs.Prelude.{◌≡◌, true};
ghost use Rattle.dns_name.specs.Names.{under};

use dns_name::{Name, NameRef, ToName};
use std::convert::AsSlice;

/// Whether a name is another one or below it, ASCII case aside (RFC 1034, 3.1; RFC 4343, 3). Names that are spelled alike, as most are, are not copied.
pub fn is_at_or_below<A: AsSlice<u8>, B: AsSlice<u8>>(name: &Name<A>, base: &Name<B>) -> bool
    ensures { result ≡ under name.now base.now }
{
    is_spelled_below(&name.borrowed(), &base.borrowed()) || name.ends_with(base)
}

/// Whether a name is another one or below it, octet for octet. Labels are taken off until it isn't longer.
fn is_spelled_below(name: &NameRef<'_>, base: &NameRef<'_>) -> bool
    ensures { result ≡ true → under name.now base.now ≡ true }
{
    let mut rest = name.borrowed();
    while rest.as_slice().len() > base.as_slice().len() {
        match rest.split_first() {
            Some((_, parent)) => rest = parent,
            None => return false,
        }
    }
    rest.as_slice() == base.as_slice()
}
