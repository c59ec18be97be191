// Worked examples, proved by computation.
ghost use Rattle.std.specs.Prelude.{◌≡◌, ◌∷◌, [], ◌^◌, codes, Some, None, Ok, Err};
ghost use Rattle.zone_values.specs.TypedEntries.{typed, typed_set_in};
ghost use Rattle.zone_diffs.specs.Building.{added_to, removed_from, built, first_serial};
ghost use Rattle.zone_model.specs.ZoneRows.{soa};
ghost use Rattle.zone_diffs.specs.DiffRows.{nothing, apex_soa, host_a, www_alias, host, alias, set, soa_set, hosts, soa_change, ttl_change, record_count};
ghost use Rattle.zone_diffs.specs.declared.errors.ZoneDiffError.TheVariants.{MissingStartSoa, MissingEndSoa, InvalidSerialRange};

/// Three addresses whose TTL changes from 3600 to 60, and serial 2 after serial 1.
pub fn changed_ttl()
    ensures removed { record_count ttl_change.removed ≡ 4 }
    ensures added { record_count ttl_change.added ≡ 4 }
    ensures built { built ttl_change ≡ Ok (record { start_serial = 1; end_serial = 2; removed = (apex_soa, soa_set 1) ∷ (host_a, hosts 3600) ∷ []; added = (apex_soa, soa_set 2) ∷ (host_a, hosts 60) ∷ [] }) }
{}

/// What comes and goes.
pub fn cancelled_records()
    ensures gone { removed_from (added_to nothing host_a (hosts 60)) host_a (hosts 60) ≡ nothing }
    ensures back { added_to (removed_from nothing host_a (hosts 60)) host_a (hosts 60) ≡ nothing }
    ensures in_part { added_to (removed_from nothing host_a (set 60 (host 1 ∷ host 2 ∷ []))) host_a (set 60 (host 2 ∷ host 3 ∷ [])) ≡ record { removed = (host_a, set 60 (host 1 ∷ [])) ∷ []; added = (host_a, set 60 (host 3 ∷ [])) ∷ [] } }
    ensures other_ttl { added_to (removed_from nothing host_a (set 60 (host 1 ∷ []))) host_a (set 61 (host 1 ∷ [])) ≡ record { removed = (host_a, set 60 (host 1 ∷ [])) ∷ []; added = (host_a, set 61 (host 1 ∷ [])) ∷ [] } }
    ensures any_case { removed_from (added_to nothing www_alias (set 60 (alias (codes "ns") ∷ []))) www_alias (set 60 (alias (codes "NS") ∷ [])) ≡ nothing }
{}

/// Each side keeps the TTL that its set began with: where an RRset comes with another one, a record may then be on both.
pub fn sides()
    ensures first_ttl { (added_to (added_to nothing host_a (set 60 (host 1 ∷ []))) host_a (set 90 (host 1 ∷ host 2 ∷ []))).added ≡ (host_a, set 60 (host 1 ∷ host 2 ∷ [])) ∷ [] }
    ensures once { (removed_from nothing host_a (set 60 (host 1 ∷ host 2 ∷ host 1 ∷ []))).removed ≡ (host_a, set 60 (host 1 ∷ host 2 ∷ [])) ∷ [] }
    ensures on_one_side { added_to (added_to (removed_from nothing host_a (set 60 (host 1 ∷ []))) host_a (set 60 (host 2 ∷ []))) host_a (set 60 (host 1 ∷ [])) ≡ record { removed = []; added = (host_a, set 60 (host 2 ∷ [])) ∷ [] } }
    ensures on_both_sides { added_to (added_to (removed_from nothing host_a (set 60 (host 1 ∷ []))) host_a (set 60 (host 2 ∷ []))) host_a (set 90 (host 1 ∷ [])) ≡ record { removed = (host_a, set 60 (host 1 ∷ [])) ∷ []; added = (host_a, set 60 (host 2 ∷ host 1 ∷ [])) ∷ [] } }
    ensures empty { added_to nothing host_a (set 60 []) ≡ nothing }
    ensures found { typed_set_in (added_to nothing host_a (hosts 60)).added host_a ≡ Some (typed 1 (hosts 60)) }
    ensures lacking { typed_set_in (added_to nothing host_a (hosts 60)).added apex_soa ≡ None }
{}

/// What a difference is refused for, and serials at distance 2^31, which have no order (RFC 1982, 3.2).
pub fn serials()
    ensures start_first { built nothing ≡ Err MissingStartSoa }
    ensures end_next { built (removed_from nothing apex_soa (soa_set 7)) ≡ Err MissingEndSoa }
    ensures start_alone { built (added_to nothing apex_soa (soa_set 7)) ≡ Err MissingStartSoa }
    ensures equal { built (added_to (removed_from nothing apex_soa (soa_set 7)) apex_soa (set 60 ((soa 7).fields ∷ []))) ≡ Err InvalidSerialRange }
    ensures before { built (soa_change 7 (0 ∷ 0 ∷ 0 ∷ 6 ∷ [])) ≡ Err InvalidSerialRange }
    ensures wrapped { built (soa_change 0 (255 ∷ 255 ∷ 255 ∷ 255 ∷ [])) ≡ Err InvalidSerialRange }
    ensures apart { first_serial (soa_change 0 (128 ∷ 0 ∷ 0 ∷ 0 ∷ [])).added ≡ Some (2 ^ 31) }
    ensures apart_built { built (soa_change 0 (128 ∷ 0 ∷ 0 ∷ 0 ∷ [])) ≡ Ok (record { start_serial = 0; end_serial = 2 ^ 31; removed = (soa_change 0 (128 ∷ 0 ∷ 0 ∷ 0 ∷ [])).removed; added = (soa_change 0 (128 ∷ 0 ∷ 0 ∷ 0 ∷ [])).added }) }
{}
