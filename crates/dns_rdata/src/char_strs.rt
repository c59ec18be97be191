// The character strings of a text, one after another.
ghost use Rattle.std.specs.Prelude.{◌≡◌, IsTrue, length, nat_le};
ghost use Rattle.std.specs.List.{list_all};
ghost use Rattle.dns_name.specs.Records.{are_strings_after, strings_in};

use std::marker::Model;

/// The character strings of a text from the first, each without the octet that tells its length (RFC 1035, 3.3).
#[derive(Debug, Drop)]
pub struct CharStrs<'a> {
    rest: &'a [u8],
}

impl<'a> Model for CharStrs<'a> {
    ghost use Rattle.std.specs.Prelude.{ℕ, List, IsTrue};
    ghost use Rattle.dns_name.specs.Records.{are_strings_after, strings_in};

    ghost Value = { List (List ℕ) };

    ghost view = { λ i. strings_in i.rest.now };

    ghost invariant = { λ i. IsTrue (are_strings_after 0 i.rest.now) };
}

impl<'a> CharStrs<'a> {
    /// The strings of these octets, which are whole character strings, or none.
    pub(crate) fn of(octets: &'a [u8]) -> CharStrs<'a>
        requires { IsTrue (are_strings_after 0 octets.now) }
        ensures value { result ≡ strings_in octets.now }
        ensures short { IsTrue (list_all (λ string. nat_le (length string) 255) result) }
    {
        CharStrs { rest: octets }
    }
}

impl<'a> Iterator for CharStrs<'a> {
    type Item = &'a [u8];

    ghost use Rattle.std.specs.Iterator.{YieldsFirstRef, item_count};

    ghost next_gives = { YieldsFirstRef (λ i. i) };

    ghost remaining = { item_count (λ i. i) };

    #[tactic(auto, using(crate::proofs::Strings::string_there, crate::proofs::Strings::strings_more, crate::proofs::Strings::string_left))]
    fn next(&mut self) -> Option<&'a [u8]> {
        let (len, after) = self.rest.split_first()?;
        let (string, behind) = after.split_at(usize::from(*len));
        self.rest = behind;
        Some(string)
    }
}
