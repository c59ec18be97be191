// Worked examples of offers and updates: what a primary has to offer, and what is refused of a zone file or an update, proved by computation.
ghost use Rattle.std.specs.Prelude.{◌≡◌, [], ◌∷◌, map, codes, true, false, Some, None, Ok, Err};
ghost use Rattle.zone_model.specs.TransferText.{Axfr, Ixfr};
ghost use Rattle.zone_model.specs.Difference.{difference};
ghost use Rattle.zone_model.specs.Offer as offers;
ghost use Rattle.zone_model.specs.Offer.{text_of, are_pages, are_single, whole_text};
ghost use Rattle.zone_model.specs.Classify as classes;
ghost use Rattle.zone_model.specs.Updates as updates;
ghost use Rattle.zone_model.specs.Edits as edits;
ghost use Rattle.zone_model.specs.ZoneRows as rows;

/// What a primary sends to one who has its serial or a later one, one of its history, or none of it (RFC 1995, 2 and 4).
pub fn text_row()
    ensures same { text_of (offers.offer_of rows.history_3 rows.history_differences false 3) Ixfr 3 ≡ rows.soa 3 ∷ [] }
    ensures later { text_of (offers.offer_of rows.history_3 rows.history_differences false 9) Ixfr 9 ≡ rows.soa 3 ∷ [] }
    ensures middle { text_of (offers.offer_of rows.history_3 rows.history_differences false 2) Ixfr 2 ≡ rows.soa 3 ∷ rows.soa 2 ∷ rows.address rows.jain 4 ∷ rows.soa 3 ∷ rows.address rows.jain 3 ∷ rows.soa 3 ∷ [] }
    ensures unknown { text_of (offers.offer_of rows.history_3 rows.history_differences false 0) Ixfr 0 ≡ whole_text rows.history_3 }
    ensures whole { text_of (offers.offer_of rows.history_3 rows.history_differences false 3) Axfr 3 ≡ whole_text rows.history_3 }
{}

/// To whom a provider offers: a key that it grants, by name up to case and by algorithm, for its own zone and class.
pub fn granted_row()
    ensures granted { offers.offered rows.provider rows.loud_e 1 (Some (rows.loud_sub, 2)) 1 ≡ Ok (offers.offer_of rows.history_3 rows.history_differences false 1) }
    ensures unsigned { offers.offered rows.provider rows.e 1 None 1 ≡ Err offers.NotGranted }
    ensures algorithm { offers.offered rows.provider rows.e 1 (Some (rows.sub, 1)) 1 ≡ Err offers.NotGranted }
    ensures key { offers.offered rows.provider rows.e 1 (Some (rows.www, 2)) 1 ≡ Err offers.NotGranted }
    ensures class { offers.offered rows.provider rows.e 3 (Some (rows.sub, 2)) 1 ≡ Err offers.UnknownZone }
    ensures zone { offers.offered rows.provider rows.sub 1 (Some (rows.sub, 2)) 1 ≡ Err offers.UnknownZone }
{}

/// A push whose serial comes again drops what led up to it; one without a difference drops all.
pub fn push_row()
    ensures again { map (λ d. d.start_serial) (offers.pushed rows.history_differences (Some (difference rows.history_3 rows.history_1))) ≡ 2 ∷ 3 ∷ [] }
    ensures alone { offers.pushed rows.history_differences None ≡ [] }
{}

/// Messages that are filled to the last octet: 66 octets hold an SOA of 41 and an address of 25.
pub fn page_row()
    ensures full { are_pages 66 ((rows.soa 1 ∷ rows.address rows.t 1 ∷ []) ∷ (rows.soa 1 ∷ []) ∷ []) ≡ true }
    ensures over { are_pages 65 ((rows.soa 1 ∷ rows.address rows.t 1 ∷ []) ∷ (rows.soa 1 ∷ []) ∷ []) ≡ false }
    ensures early { are_pages 66 ((rows.soa 1 ∷ []) ∷ (rows.address rows.t 1 ∷ []) ∷ []) ≡ false }
    ensures empty { are_pages 66 ([] ∷ (rows.soa 1 ∷ []) ∷ []) ≡ false }
    ensures single { are_single 41 ((rows.soa 1 ∷ []) ∷ (rows.soa 1 ∷ []) ∷ []) ≡ true }
    ensures not_single { are_single 90 ((rows.soa 1 ∷ rows.soa 1 ∷ []) ∷ []) ≡ false }
{}

/// What a zone opens with: the lowest TTL of an RRset's records, equal data once, nothing outside; and what a zone file refuses.
pub fn opened_row()
    ensures opened { classes.opened (record { apex = rows.e; class = 1; accepted = rows.address rows.t 1 ∷ rows.with_ttl 60 (rows.address rows.t 1) ∷ rows.address rows.t 2 ∷ rows.address (rows.other (codes "a" ∷ [])) 5 ∷ [] }) ≡ rows.zone (rows.with_ttl 60 (rows.address rows.t 1) ∷ rows.with_ttl 60 (rows.address rows.t 2) ∷ []) }
    ensures class { classes.classify (record { apex = rows.e; class = 3; accepted = [] }) (rows.soa 1) ≡ classes.Rejected classes.ClassMismatch }
    ensures cut { classes.classify (record { apex = rows.e; class = 1; accepted = rows.address rows.sub 1 ∷ rows.rr rows.sub 16 [] ∷ [] }) (rows.ns rows.loud_sub rows.sub) ≡ classes.Rejected (classes.IllegalZoneCut 16) }
    ensures aliases { classes.classify (record { apex = rows.e; class = 1; accepted = rows.alias rows.www rows.a_b ∷ [] }) (rows.alias rows.www rows.c_b) ≡ classes.Rejected classes.MultipleCnames }
    ensures beside_alias { classes.classify (record { apex = rows.e; class = 1; accepted = rows.alias rows.www rows.a_b ∷ [] }) (rows.address rows.www 1) ≡ classes.Rejected (classes.IllegalRecord 5) }
    ensures outside { classes.classify (record { apex = rows.e; class = 1; accepted = [] }) (rows.address (rows.other (codes "a" ∷ [])) 1) ≡ classes.Accepted classes.Outside }
{}

/// Updates that are refused: a record that is no SOA where one is due, any after the end, and an edit, after which data that don't fit end all. Equal data are passed
/// over once all records were deleted.
pub fn refusal_row()
    ensures no_soa { map (updates.apply_update (updates.begin rows.history_1)) (updates.BeginBatchAdd (rows.address rows.t 1) ∷ updates.Finished (rows.address rows.t 1) ∷ []) ≡ Err updates.NotSoaRecord ∷ Err updates.NotSoaRecord ∷ [] }
    ensures behind { map (updates.apply_update (record (updates.begin rows.history_1) { finished = true })) (updates.DeleteAllRecords ∷ updates.AddRecord (rows.address rows.t 1) ∷ updates.Finished (rows.soa 2) ∷ []) ≡ Err updates.AfterFinish ∷ Err updates.AfterFinish ∷ Err updates.AfterFinish ∷ [] }
    ensures again { updates.apply_update (updates.begin rows.history_1) (updates.AddRecord (rows.soa 1)) ≡ Err (updates.Edit edits.Incompatible) }
    ensures passed_over { updates.apply_update (record (updates.begin rows.history_1) { replacing = true }) (updates.AddRecord (rows.soa 1)) ≡ Ok (record (updates.begin rows.history_1) { replacing = true }) }
    ensures outside { updates.apply_update (record (updates.begin rows.history_1) { replacing = true }) (updates.AddRecord (rows.address (rows.other (codes "a" ∷ [])) 1)) ≡ Err (updates.Edit edits.OutOfZone) }
    ensures settled { map (λ f. (updates.after_refusal (updates.begin rows.history_1) f).finished) (updates.Edit edits.Incompatible ∷ updates.Edit edits.OutOfZone ∷ updates.Edit edits.InvalidData ∷ updates.NotSoaRecord ∷ []) ≡ true ∷ false ∷ false ∷ false ∷ [] }
{}
