// Laws of the definitions, each the contract of a function with an empty body.
ghost use Rattle.std.specs.Prelude.{◌≡◌, ◌∷◌, ℕ, List, flat_map, length, nat_le, nat_lt, IsTrue};
ghost use Rattle.std.specs.List.{concat, list_all};
ghost use Rattle.dns_name.specs.Records.{are_strings, strings_in, text_strings};

/// The strings of a text's data, joined, are the text.
pub fn strings_of_texts_join_to_them()
    ensures { (text : List ℕ) → concat (strings_in (text_strings text)) ≡ text }
{}

/// A text's data are whole character strings, at least one.
pub fn texts_are_strings()
    ensures { (text : List ℕ) → IsTrue (are_strings (text_strings text)) }
{}

/// The strings of whole ones, each led by an octet that tells its length, are the octets they were read from.
pub fn strings_are_spelled()
    ensures { (octets : List ℕ) → IsTrue (are_strings octets) → flat_map (λ string. length string ∷ string) (strings_in octets) ≡ octets }
{}

/// No string has more than 255 octets.
pub fn strings_are_short()
    ensures { (octets : List ℕ) → IsTrue (list_all (λ c. nat_lt c 256) octets) → IsTrue (list_all (λ string. nat_le (length string) 255) (strings_in octets)) }
{}
