// Worked examples of places, proved by computation: the text from a place on.
ghost use Rattle.std.specs.Prelude.{◌≡◌, [], ◌∷◌, true, false, None};
ghost use Rattle.dns_numbers.specs.Codes.{type_a, type_soa};
ghost use Rattle.zone_model.specs.ZoneRows as rows;
ghost use Rattle.xfr_replies.specs.Places.{text_from};
ghost use Rattle.xfr_replies.specs.declared.place.Part.TheVariants.{BeforeZone, Zone, BeforeChanges, SideSoas, SideSets, Last};

/// Places in a zone: what is left of a set, then the sets behind its key, those below a cut among them, and the SOA record (RFC 5936, 2.2).
pub fn zone_row()
    ensures begin { text_from rows.cut_zone [] (record { part = BeforeZone; owner = rows.e; rtype = type_soa; index = 0; set = None }) ≡ rows.soa 1 ∷ rows.address rows.sub 3 ∷ rows.ns rows.sub rows.sub ∷ rows.soa 1 ∷ [] }
    ensures below_cut { text_from rows.cut_zone [] (record { part = Zone; owner = rows.sub; rtype = type_a; index = 0; set = None }) ≡ rows.address rows.sub 3 ∷ rows.ns rows.sub rows.sub ∷ rows.soa 1 ∷ [] }
    ensures second { text_from rows.first_zone [] (record { part = Zone; owner = rows.ns_host; rtype = type_a; index = 1; set = None }) ≡ rows.address rows.ns_host 2 ∷ rows.soa 1 ∷ [] }
    ensures last { text_from rows.first_zone [] (record { part = Last; owner = rows.e; rtype = type_soa; index = 0; set = None }) ≡ rows.soa 1 ∷ [] }
{}

/// Places in the differences of a history (RFC 1995, 4 and 7).
pub fn changes_row()
    ensures begin { text_from rows.history_3 rows.history_differences (record { part = BeforeChanges; owner = rows.e; rtype = type_soa; index = 0; set = None }) ≡ rows.history_text }
    ensures added { text_from rows.history_3 rows.history_differences (record { part = SideSets (record { number = 0; adds = true }); owner = rows.jain; rtype = type_a; index = 1; set = None })
        ≡ rows.address rows.jain 2 ∷ rows.soa 2 ∷ rows.address rows.jain 4 ∷ rows.soa 3 ∷ rows.address rows.jain 3 ∷ rows.soa 3 ∷ [] }
    ensures removed { text_from rows.history_3 rows.history_differences (record { part = SideSoas (record { number = 1; adds = false }); owner = rows.e; rtype = type_soa; index = 0; set = None })
        ≡ rows.soa 2 ∷ rows.address rows.jain 4 ∷ rows.soa 3 ∷ rows.address rows.jain 3 ∷ rows.soa 3 ∷ [] }
{}
