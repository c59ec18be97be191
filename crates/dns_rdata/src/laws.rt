// Laws of the definitions, each the contract of a function with an empty body.
ghost use Rattle.std.specs.Prelude.{◌≡◌, ◌↔◌, ℕ, List, map, nat_lt, Some, IsTrue};
ghost use Rattle.std.specs.List.{list_all};
ghost use Rattle.std.specs.Cmp.Lexicographic.{pointwise};
ghost use Rattle.dns_name.specs.Records.{Field, Part, Record, part_allows, fields_at, fold_field, record_wire, same_data};
ghost use Rattle.dns_rdata.specs.Heads.{record_in};

/// Data are equal exactly where their fields are, the names in lower case (RFC 2181, 5; RFC 4343, 3).
pub fn equal_data_have_equal_folded_fields()
    ensures { (a b : List Field) → IsTrue (same_data a b) ↔ (map fold_field a ≡ map fold_field b) }
{}

/// What is read as data has the pieces that were asked for, one for one.
pub fn data_read_have_their_pieces()
    ensures { (pieces : List Part) (message : List ℕ) (end : ℕ) (p : ℕ) (fields : List Field)
        → IsTrue (list_all (λ c. nat_lt c 256) message) → fields_at pieces message end p ≡ Some fields
        → IsTrue (pointwise part_allows pieces fields) }
{}

/// Octets in which a record is found are the record as it is sent.
pub fn records_found_are_spelled()
    ensures { (octets : List ℕ) (r : Record) → record_in octets ≡ Some r → record_wire r ≡ octets }
{}
