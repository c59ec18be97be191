// Worked examples, proved by computation.
ghost use Rattle.std.specs.Prelude.{◌≡◌, ◌∷◌, [], codes, true, false, None};
ghost use Rattle.dns_rdata.specs.RecordRows.{example, ns_example};
ghost use Rattle.zone_values.specs.Relative.{labels_below};
ghost use Rattle.zone_values.specs.TypedSets.{set_of, with_record, first_record, same_typed_set};
ghost use Rattle.zone_values.specs.TypeRows.{host, alias};

/// Labels below the apex.
pub fn relative_names()
    ensures apex { labels_below example example ≡ [] }
    ensures below { labels_below example (codes "a" ∷ ns_example) ≡ codes "ns" ∷ codes "a" ∷ [] }
    ensures root { labels_below [] ns_example ≡ codes "example" ∷ codes "ns" ∷ [] }
{}

/// RRsets.
pub fn record_sets()
    ensures lower { with_record (set_of 1 3600 (host 1 ∷ [])) 60 (host 2) ≡ set_of 1 60 (host 1 ∷ host 2 ∷ []) }
    ensures higher { with_record (set_of 1 60 (host 1 ∷ [])) 3600 (host 1) ≡ set_of 1 60 (host 1 ∷ host 1 ∷ []) }
    ensures none { first_record (set_of 1 60 []) ≡ None }
    ensures in_any_case { same_typed_set (set_of 5 60 (alias (codes "ns") ∷ [])) (set_of 5 60 (alias (codes "NS") ∷ [])) ≡ true }
    ensures other_ttl { same_typed_set (set_of 1 60 (host 1 ∷ [])) (set_of 1 61 (host 1 ∷ [])) ≡ false }
    ensures other_order { same_typed_set (set_of 1 60 (host 1 ∷ host 2 ∷ [])) (set_of 1 60 (host 2 ∷ host 1 ∷ [])) ≡ false }
{}
