// Worked examples of transfer texts and their reading, proved by computation.
ghost use Rattle.std.specs.Prelude.{◌≡◌, [], ◌∷◌, map, true, false, Some, None, Ok, length, drop};
ghost use Rattle.zone_model.specs.Version.{same_version};
ghost use Rattle.zone_model.specs.Edits.{Incompatible};
ghost use Rattle.zone_model.specs.Difference.{difference, diffable, apply_difference, records_in};
ghost use Rattle.zone_model.specs.TransferText.{Axfr, Ixfr, read_text};
ghost use Rattle.zone_model.specs.Spells.{spelling};
ghost use Rattle.zone_model.specs.Offer.{text_of, successive, pushed, are_pages, whole_text, changes_text, changes_or_whole};
ghost use Rattle.zone_model.specs.ZoneRows as rows;
ghost use Rattle.zone_model.specs.Updates as updates;
ghost use Rattle.zone_model.specs.Commits.{commits_after};
ghost use Rattle.zone_model.specs.LawRows as law_rows;
ghost use Rattle.dns_name.specs.Records.{record_wire};

/// The difference of two versions, and what an incremental text of two batches spells.
pub fn history_row()
    ensures removed { records_in rows.history_1 (difference rows.history_1 rows.history_2).removed ≡ rows.soa 1 ∷ rows.address rows.nezu 5 ∷ [] }
    ensures added { records_in rows.history_1 (difference rows.history_1 rows.history_2).added ≡ rows.soa 2 ∷ rows.address rows.jain 4 ∷ rows.address rows.jain 2 ∷ [] }
    ensures spelt { (spelling Ixfr rows.history_text rows.history_1).versions ≡ rows.history_1 ∷ rows.history_2 ∷ rows.history_3 ∷ [] }
    ensures whole { (spelling Ixfr rows.history_text rows.history_1).fault ≡ None }
{}

/// An RRset whose TTL changed counts whole on both sides.
pub fn ttl_row()
    ensures { let old = rows.zone (rows.soa 1 ∷ rows.address rows.t 1 ∷ rows.address rows.t 2 ∷ rows.address rows.t 3 ∷ []) in
        let new = rows.zone (rows.soa 2 ∷ rows.with_ttl 60 (rows.address rows.t 1) ∷ rows.with_ttl 60 (rows.address rows.t 2) ∷ rows.with_ttl 60 (rows.address rows.t 3) ∷ []) in
        (length (records_in old (difference old new).removed) ≡ 4) × (length (records_in old (difference old new).added) ≡ 4)
        × (apply_difference old (difference old new) ≡ Ok new) }
{}

/// A whole text in answer to an incremental question, and a batch that deletes what isn't there.
pub fn fault_row()
    ensures kept { (spelling Ixfr (rows.soa 2 ∷ rows.soa 2 ∷ []) (rows.zone (rows.soa 1 ∷ rows.address rows.a_b 6 ∷ []))).versions ≡ rows.zone (rows.soa 2 ∷ rows.address rows.a_b 6 ∷ []) ∷ [] }
    ensures before { (spelling Ixfr (rows.soa 2 ∷ rows.soa 1 ∷ rows.address rows.a_b 7 ∷ rows.soa 2 ∷ rows.soa 2 ∷ []) (rows.zone (rows.soa 1 ∷ []))).versions ≡ rows.zone (rows.soa 1 ∷ []) ∷ [] }
    ensures fault { (spelling Ixfr (rows.soa 2 ∷ rows.soa 1 ∷ rows.address rows.a_b 7 ∷ rows.soa 2 ∷ rows.soa 2 ∷ []) (rows.zone (rows.soa 1 ∷ []))).fault ≡ Some Incompatible }
    ensures far { diffable (rows.zone (rows.soa 0 ∷ [])) (rows.zone (rows.soa_octets (128 ∷ 0 ∷ 0 ∷ 0 ∷ []) ∷ [])) ≡ true }
{}

/// What a primary sends of its history is read back as that history.
pub fn offer_row()
    ensures text { text_of (record { version = rows.history_3; differences = difference rows.history_1 rows.history_2 ∷ difference rows.history_2 rows.history_3 ∷ []; compatibility = false }) Ixfr 1 ≡ rows.history_text }
    ensures whole { text_of (record { version = rows.cut_zone; differences = []; compatibility = false }) Axfr 0 ≡ rows.soa 1 ∷ rows.address rows.sub 3 ∷ rows.ns rows.sub rows.sub ∷ rows.soa 1 ∷ [] }
{}

/// The serials of a chain, and what a push keeps.
pub fn chain_row()
    ensures { map (λ d. d.end_serial) (pushed (successive (rows.history_1 ∷ rows.history_2 ∷ [])) (Some (difference rows.history_2 rows.history_3))) ≡ 2 ∷ 3 ∷ [] }
{}

/// Updates of a text commit what the text spells.
pub fn updates_row()
    ensures committed { (updates.progress (updates.begin rows.history_1) (updates.updates_of (read_text Ixfr (rows.soa 3) (drop 1 rows.history_text)))).committed ≡ rows.history_1 ∷ rows.history_2 ∷ rows.history_3 ∷ [] }
    ensures more { commits_after (record { number = 0; version = rows.history_1 }) (rows.history_2 ∷ []) ≡ record { number = 1; version = rows.history_2 } ∷ [] }
{}

/// Lengths in wire form, and a text cut into messages.
pub fn length_row()
    ensures soa { length (record_wire (rows.soa 1)) ≡ 41 }
    ensures pages { are_pages 90 ((rows.soa 1 ∷ rows.address rows.t 1 ∷ []) ∷ (rows.soa 1 ∷ []) ∷ []) ≡ true }
    ensures early { are_pages 90 ((rows.soa 1 ∷ []) ∷ (rows.address rows.t 1 ∷ rows.soa 1 ∷ []) ∷ []) ≡ false }
{}

/// What the premises rule out: an SOA below the apex ends a text early, a second SOA isn't sent, and a DS without NS isn't kept.
pub fn premises_row()
    ensures below { map (λ v. length v.sets) (spelling Axfr (whole_text law_rows.soa_below) rows.empty_zone).versions ≡ 1 ∷ [] }
    ensures below_has { length law_rows.soa_below.sets ≡ 3 }
    ensures second { map (same_version law_rows.two_soas) (spelling Axfr (whole_text law_rows.two_soas) rows.empty_zone).versions ≡ false ∷ [] }
    ensures stray { map (same_version law_rows.stray_signer) (spelling Axfr (whole_text law_rows.stray_signer) rows.empty_zone).versions ≡ false ∷ [] }
    ensures alone { map (same_version (rows.zone (rows.soa 2 ∷ []))) (spelling Ixfr (whole_text (rows.zone (rows.soa 2 ∷ []))) rows.history_1).versions ≡ false ∷ [] }
    ensures moved { length (spelling Ixfr (changes_text law_rows.moved (difference (rows.zone (rows.soa 1 ∷ [])) law_rows.moved ∷ [])) (rows.zone (rows.soa 1 ∷ []))).versions ≡ 1 }
    ensures unsent { changes_or_whole law_rows.moved (difference (rows.zone (rows.soa 1 ∷ [])) law_rows.moved ∷ []) ≡ whole_text law_rows.moved }
    ensures case_of_apex { map (same_version rows.history_3) (spelling Axfr (whole_text rows.history_3) law_rows.loud).versions ≡ true ∷ [] }
    ensures class { map (λ v. v.class) (spelling Axfr (whole_text rows.history_3) law_rows.loud).versions ≡ 3 ∷ [] }
{}
