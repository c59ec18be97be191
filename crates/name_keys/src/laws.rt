// Laws of the definitions, each the contract of a function with an empty body.
ghost use Rattle.std.specs.Prelude.{◌≡◌, ◌≤◌, ◌↔◌, ◌∷◌, ◌++◌, ℕ, List, length, eqb, IsTrue};
ghost use Rattle.std.specs.List.{starts_with};
ghost use Rattle.std.specs.Ordering.{nat_cmp};
ghost use Rattle.std.specs.Cmp.Lexicographic.{slice_cmp};
ghost use Rattle.dns_name.specs.Names.{Name, is_name, fold, same_name, under, canonical_cmp};
ghost use Rattle.name_keys.specs.NameKeys.{IsNameKey, IsInKeyRange, name_key, name_of_key};

/// The order of keys as strings of octets is canonical order of the names (RFC 4034, 6.1).
pub fn keys_compare_as_names()
    ensures { (m n : Name) → slice_cmp nat_cmp (name_key m) (name_key n) ≡ canonical_cmp m n }
{}

/// Names are equal exactly where their keys are (RFC 4343, 3).
pub fn equal_names_have_one_key()
    ensures { (m n : Name) → IsTrue (same_name m n) ↔ (name_key m ≡ name_key n) }
{}

/// A name is at or below another exactly where its key begins with the other's (RFC 1034, 3.1).
pub fn keys_begin_with_those_above()
    ensures test { (n m : Name) → under n m ≡ starts_with eqb (name_key n) (name_key m) }
    ensures rest { (n m : Name) → IsTrue (under n m) ↔ ((rest : List ℕ) × (name_key n ≡ name_key m ++ rest)) }
{}

/// The strings that begin with the key of a name that isn't the root's, and so the keys of the names at or
/// below it, are those of a map's range: from the key on, included, up to its `key_end`, excluded.
pub fn keys_under_a_name_are_a_range()
    ensures strings { (s label : List ℕ) (m : Name)
        → ((rest : List ℕ) × (s ≡ name_key (label ∷ m) ++ rest)) ↔ IsInKeyRange (name_key (label ∷ m)) s }
    ensures names { (n : Name) (label : List ℕ) (m : Name)
        → IsTrue (under n (label ∷ m)) ↔ IsInKeyRange (name_key (label ∷ m)) (name_key n) }
{}

/// A key spells its name in lower case.
pub fn keys_are_read_back()
    ensures { (n : Name) → name_of_key (name_key n) ≡ fold n }
{}

/// Octets that are the key of a name are that of the name that they spell, which is in lower case.
pub fn keys_are_of_their_names()
    ensures key { (octets : List ℕ) → IsNameKey octets → name_key (name_of_key octets) ≡ octets }
    ensures name { (octets : List ℕ) → IsNameKey octets → IsTrue (is_name (name_of_key octets)) }
    ensures folded { (octets : List ℕ) → IsNameKey octets → fold (name_of_key octets) ≡ name_of_key octets }
{}

/// The key of a name that has a wire form has 504 octets at most.
pub fn keys_are_short()
    ensures { (n : Name) → IsTrue (is_name n) → length (name_key n) ≤ 504 }
{}
