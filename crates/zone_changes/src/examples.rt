// Worked examples, proved by computation.
ghost use Rattle.std.specs.Prelude.{◌≡◌, ◌∷◌, [], true, false};
ghost use Rattle.zone_model.specs.ZoneRows.{t};
ghost use Rattle.zone_diffs.specs.DiffRows.{apex_soa, host_a, record_count};
ghost use Rattle.zone_changes.specs.Touched.{is_touched, noted, keys_below, stray_keys};
ghost use Rattle.zone_changes.specs.Changes.{lacked_at};
ghost use Rattle.zone_changes.specs.ChangeRows.{zone_with, both_keys, host_ds, version_of, with_stray, with_signer};

/// Keys are noted in order, and once.
fn noted_keys()
    ensures order { noted (noted [] host_a) apex_soa ≡ apex_soa ∷ host_a ∷ [] }
    ensures once { noted both_keys host_a ≡ both_keys }
    ensures among { is_touched both_keys host_a ≡ true }
    ensures other { is_touched both_keys host_ds ≡ false }
{}

/// The keys at and below a name, and those of a DS RRset without NS.
fn keys_of_sets()
    ensures below { keys_below (version_of (zone_with 1 60)) t ≡ host_a ∷ [] }
    ensures stray { stray_keys with_stray ≡ host_ds ∷ [] }
    ensures signer { stray_keys with_signer ≡ [] }
{}

/// Three addresses whose TTL changes, with the SOA: four records go and four come. At the one key there are the three alone.
fn changed_ttl()
    ensures removed { record_count (lacked_at (zone_with 1 3600) (zone_with 2 60) [] both_keys) ≡ 4 }
    ensures added { record_count (lacked_at (zone_with 2 60) (zone_with 1 3600) [] both_keys) ≡ 4 }
    ensures host { record_count (lacked_at (zone_with 1 3600) (zone_with 2 60) [] (host_a ∷ [])) ≡ 3 }
    ensures same_ttl { record_count (lacked_at (zone_with 1 60) (zone_with 2 60) [] both_keys) ≡ 1 }
{}
