// Worked examples, proved by computation.
ghost use Rattle.std.specs.Prelude.{◌≡◌, ◌∷◌, [], codes, map, true};
ghost use Rattle.name_keys.specs.NameKeys.{name_key, name_of_key, key_end};
ghost use Rattle.name_keys.specs.RfcNames.{rfc_names, rfc_keys, are_rising};

/// The names of RFC 4034, 6.1, by their keys, and these in order as strings of octets.
pub fn rfc_order()
    ensures keys { map name_key rfc_names ≡ rfc_keys }
    ensures order { are_rising rfc_keys ≡ true }
{}

/// The root, octets that are written as two, and what comes after all keys that begin with one.
pub fn rows()
    ensures root { name_key [] ≡ [] }
    ensures low_octets { name_key ((0 ∷ 1 ∷ 2 ∷ []) ∷ []) ≡ 1 ∷ 1 ∷ 1 ∷ 2 ∷ 2 ∷ 0 ∷ [] }
    ensures read { name_of_key (1 ∷ 1 ∷ 1 ∷ 2 ∷ 2 ∷ 0 ∷ 97 ∷ 0 ∷ []) ≡ codes "a" ∷ (0 ∷ 1 ∷ 2 ∷ []) ∷ [] }
    ensures end { key_end (97 ∷ 0 ∷ 98 ∷ 0 ∷ []) ≡ 97 ∷ 0 ∷ 98 ∷ 1 ∷ [] }
{}
