// Worked examples of single edits, and of what a version's readers see, proved by computation.
ghost use Rattle.std.specs.Prelude.{◌≡◌, [], ◌∷◌, map, codes, true, false, Some, None, Ok, Err, option_map};
ghost use Rattle.dns_numbers.specs.Codes.{type_a, type_ns, type_cname, type_soa, type_ds};
ghost use Rattle.zone_model.specs.Version.{same_version};
ghost use Rattle.zone_model.specs.Walk.{walk, next_stop};
ghost use Rattle.zone_model.specs.Edits.{OutOfZone, Incompatible, InvalidData, add, delete, close, bump, replace_set, clear, make_plain, make_alias, make_cut};
ghost use Rattle.zone_model.specs.Difference.{difference};
ghost use Rattle.zone_model.specs.Commits as commits;
ghost use Rattle.zone_model.specs.ZoneRows as rows;
ghost use Rattle.zone_model.specs.LawRows as law_rows;

/// A record that is added: its TTL becomes the RRset's; what refuses it, first the owner, then equal data, then a second alias below the apex.
pub fn add_row()
    ensures ttl { add (rows.zone (rows.address rows.t 1 ∷ [])) (rows.with_ttl 60 (rows.address rows.t 2)) ≡ Ok (rows.zone (rows.with_ttl 60 (rows.address rows.t 1) ∷ rows.with_ttl 60 (rows.address rows.t 2) ∷ [])) }
    ensures longer_ttl { add (rows.zone (rows.with_ttl 60 (rows.address rows.t 1) ∷ [])) (rows.address rows.t 2) ≡ Ok (rows.zone (rows.address rows.t 1 ∷ rows.address rows.t 2 ∷ [])) }
    ensures outside { add rows.empty_zone (rows.address (rows.other (codes "a" ∷ [])) 1) ≡ Err OutOfZone }
    ensures again { add (rows.zone (rows.ns rows.sub rows.sub ∷ [])) (rows.ns rows.loud_sub rows.loud_sub) ≡ Err Incompatible }
    ensures alias { add (rows.zone (rows.alias rows.www rows.a_b ∷ [])) (rows.alias rows.www rows.c_b) ≡ Err InvalidData }
    ensures same_alias { add (rows.zone (rows.alias rows.www rows.a_b ∷ [])) (rows.alias rows.www rows.a_b) ≡ Err Incompatible }
    ensures apex_alias { add (rows.zone (rows.alias rows.e rows.a_b ∷ [])) (rows.alias rows.e rows.c_b) ≡ Ok (rows.zone (rows.alias rows.e rows.a_b ∷ rows.alias rows.e rows.c_b ∷ [])) }
{}

/// A record that is deleted goes by its data alone; what is left takes its TTL, and an empty RRset goes.
pub fn delete_row()
    ensures ttl { delete (rows.zone (rows.address rows.t 1 ∷ rows.address rows.t 2 ∷ [])) (rows.with_ttl 60 (rows.address rows.t 1)) ≡ Ok (rows.zone (rows.with_ttl 60 (rows.address rows.t 2) ∷ [])) }
    ensures longer_ttl { delete (rows.zone (rows.with_ttl 60 (rows.address rows.t 1) ∷ rows.with_ttl 60 (rows.address rows.t 2) ∷ [])) (rows.address rows.t 1) ≡ Ok (rows.zone (rows.address rows.t 2 ∷ [])) }
    ensures last { delete (rows.zone (rows.soa 1 ∷ rows.ns rows.sub rows.sub ∷ [])) (rows.with_ttl 60 (rows.ns rows.loud_sub rows.loud_sub)) ≡ Ok (rows.zone (rows.soa 1 ∷ [])) }
    ensures absent { delete (rows.zone (rows.address rows.t 1 ∷ [])) (rows.address rows.t 2) ≡ Err Incompatible }
    ensures outside { delete rows.empty_zone (rows.address (rows.other (codes "a" ∷ [])) 1) ≡ Err OutOfZone }
{}

/// An RRset in place of another: the first of equal data stay, no data remove it, and an alias below the apex has exactly one value.
pub fn replace_row()
    ensures once { replace_set (rows.zone (rows.address rows.t 9 ∷ [])) rows.t type_a (record { ttl = 60; items = (rows.address rows.t 1).fields ∷ (rows.address rows.t 2).fields ∷ (rows.address rows.t 1).fields ∷ [] }) ≡ Ok (rows.zone (rows.with_ttl 60 (rows.address rows.t 1) ∷ rows.with_ttl 60 (rows.address rows.t 2) ∷ [])) }
    ensures first { replace_set rows.empty_zone rows.sub type_ns (record { ttl = 3600; items = (rows.ns rows.sub rows.sub).fields ∷ (rows.ns rows.sub rows.loud_sub).fields ∷ [] }) ≡ Ok (rows.zone (rows.ns rows.sub rows.sub ∷ [])) }
    ensures emptied { replace_set rows.cut_zone rows.loud_sub type_a (record { ttl = 60; items = [] }) ≡ Ok (rows.zone (rows.soa 1 ∷ rows.ns rows.sub rows.sub ∷ [])) }
    ensures two_aliases { replace_set rows.empty_zone rows.www type_cname (record { ttl = 60; items = (rows.alias rows.www rows.a_b).fields ∷ (rows.alias rows.www rows.c_b).fields ∷ [] }) ≡ Err InvalidData }
    ensures no_alias { replace_set rows.empty_zone rows.www type_cname (record { ttl = 60; items = [] }) ≡ Err InvalidData }
    ensures same_aliases { replace_set rows.empty_zone rows.www type_cname (record { ttl = 3600; items = (rows.alias rows.www rows.a_b).fields ∷ (rows.alias rows.www rows.a_b).fields ∷ [] }) ≡ Ok (rows.zone (rows.alias rows.www rows.a_b ∷ [])) }
    ensures apex_aliases { replace_set rows.empty_zone rows.e type_cname (record { ttl = 3600; items = (rows.alias rows.e rows.a_b).fields ∷ (rows.alias rows.e rows.c_b).fields ∷ [] }) ≡ Ok (rows.zone (rows.alias rows.e rows.a_b ∷ rows.alias rows.e rows.c_b ∷ [])) }
{}

/// What is at or below a name goes; a node becomes plain, an alias, or a cut with the glue that the zone lacks, which is in it.
pub fn node_row()
    ensures cleared { clear (rows.zone (rows.soa 1 ∷ rows.address rows.sub 3 ∷ rows.address rows.under_sub 4 ∷ rows.address rows.t 1 ∷ [])) rows.loud_sub ≡ rows.zone (rows.soa 1 ∷ rows.address rows.t 1 ∷ []) }
    ensures plain { make_plain rows.signed_zone rows.sub ≡ rows.zone (rows.soa 1 ∷ []) }
    ensures plain_alias { make_plain (rows.zone (rows.soa 1 ∷ rows.alias rows.www rows.a_b ∷ [])) rows.www ≡ rows.zone (rows.soa 1 ∷ []) }
    ensures plain_apex { make_plain rows.first_zone rows.e ≡ rows.first_zone }
    ensures alias { make_alias (rows.zone (rows.alias rows.www rows.a_b ∷ [])) rows.www 60 (rows.alias rows.www rows.c_b).fields ≡ rows.zone (rows.with_ttl 60 (rows.alias rows.www rows.c_b) ∷ []) }
    ensures cut { make_cut (rows.zone (rows.with_ttl 60 (rows.address rows.sub 3) ∷ [])) rows.sub (record { ttl = 3600; items = (rows.ns rows.sub rows.sub).fields ∷ (rows.ns rows.sub rows.loud_sub).fields ∷ [] }) (Some (record { ttl = 3600; items = (rows.ds rows.sub).fields ∷ [] }))
        (rows.address rows.sub 3 ∷ rows.address rows.sub 4 ∷ rows.address (rows.other (codes "a" ∷ [])) 5 ∷ rows.ns rows.under_sub rows.sub ∷ [])
        ≡ rows.zone (rows.with_ttl 60 (rows.address rows.sub 3) ∷ rows.with_ttl 60 (rows.address rows.sub 4) ∷ rows.ns rows.sub rows.sub ∷ rows.ds rows.sub ∷ []) }
    ensures unsigned { make_cut rows.signed_zone rows.sub (record { ttl = 3600; items = (rows.ns rows.sub rows.sub).fields ∷ [] }) None [] ≡ rows.zone (rows.soa 1 ∷ rows.ns rows.sub rows.sub ∷ []) }
{}

/// What a commit leaves out: DS without NS, but not at the apex. What a bump leaves: a pending SOA whose data or TTL are news.
pub fn close_row()
    ensures stray { close law_rows.stray_signer ≡ rows.zone (rows.soa 1 ∷ []) }
    ensures signed { close rows.signed_zone ≡ rows.signed_zone }
    ensures apex { close (rows.zone (rows.soa 1 ∷ rows.ds rows.e ∷ [])) ≡ rows.zone (rows.soa 1 ∷ rows.ds rows.e ∷ []) }
    ensures news { bump (rows.zone (rows.soa 1 ∷ [])) (rows.zone (rows.soa 9 ∷ [])) ≡ rows.zone (rows.soa 9 ∷ []) }
    ensures new_ttl { bump (rows.zone (rows.soa 1 ∷ [])) (rows.zone (rows.with_ttl 60 (rows.soa 1) ∷ [])) ≡ rows.zone (rows.with_ttl 60 (rows.soa 1) ∷ []) }
    ensures absent { bump (rows.zone (rows.soa 1 ∷ [])) (rows.zone (rows.address rows.t 1 ∷ [])) ≡ rows.zone (rows.address rows.t 1 ∷ rows.soa 2 ∷ []) }
    ensures none { bump rows.empty_zone (rows.zone (rows.address rows.t 1 ∷ [])) ≡ rows.zone (rows.address rows.t 1 ∷ []) }
{}

/// A zone's history: a handle keeps the version that it was read at, a commit adds one, and what is abandoned is gone.
pub fn handles_row()
    ensures old { commits.version_of rows.history 0 ≡ Some (rows.zone (rows.soa 1 ∷ [])) }
    ensures new { commits.version_of rows.history 1 ≡ Some (rows.zone (rows.soa 1 ∷ rows.address rows.t 1 ∷ [])) }
    ensures numbers { map (λ c. c.number) rows.history.commits ≡ 7 ∷ 8 ∷ [] }
    ensures after { map (λ c. c.number) (commits.commits_after (record { number = 7; version = rows.zone (rows.soa 1 ∷ []) }) (rows.cut_zone ∷ rows.first_zone ∷ [])) ≡ 8 ∷ 9 ∷ [] }
    ensures numbered { commits.are_numbered rows.history.commits ≡ true }
    ensures gap { commits.are_numbered (record { number = 0; version = rows.empty_zone } ∷ record { number = 2; version = rows.empty_zone } ∷ []) ≡ false }
    ensures pending { rows.history.pending ≡ rows.zone (rows.soa 1 ∷ rows.address rows.t 1 ∷ []) }
{}

/// What a walk shows: the apex as it was given, other owners in lower case, and what stands at a cut or below it.
pub fn walk_row()
    ensures owners { map (λ s. s.owner) (walk law_rows.loud) ≡ (codes "EXAMPLE" ∷ []) ∷ (codes "EXAMPLE" ∷ []) ∷ rows.nezu ∷ rows.ns_host ∷ [] }
    ensures below { map (λ s. s.below_cut) (walk (rows.zone (rows.soa 1 ∷ rows.ns rows.sub rows.sub ∷ rows.address rows.under_sub 4 ∷ rows.address rows.t 1 ∷ []))) ≡ false ∷ true ∷ true ∷ false ∷ [] }
    ensures next { option_map (λ s. s.rtype) (next_stop rows.cut_zone rows.loud_sub type_a) ≡ Some type_ns }
    ensures behind { option_map (λ s. s.owner) (next_stop rows.cut_zone rows.e type_soa) ≡ Some rows.sub }
    ensures last { next_stop rows.cut_zone rows.sub type_ns ≡ None }
{}

/// Versions are the same whatever the order of an RRset's data and the case of letters in names, and aren't where a TTL or a record differs.
pub fn same_row()
    ensures order { same_version (rows.zone (rows.address rows.t 1 ∷ rows.address rows.t 2 ∷ [])) (rows.zone (rows.address rows.t 2 ∷ rows.address rows.t 1 ∷ [])) ≡ true }
    ensures letters { same_version (rows.zone (rows.ns rows.sub rows.sub ∷ [])) (rows.zone (rows.ns rows.loud_sub rows.loud_sub ∷ [])) ≡ true }
    ensures ttl { same_version (rows.zone (rows.address rows.t 1 ∷ [])) (rows.zone (rows.with_ttl 60 (rows.address rows.t 1) ∷ [])) ≡ false }
    ensures owner { same_version (rows.zone (rows.address rows.t 1 ∷ [])) (rows.zone (rows.address rows.www 1 ∷ [])) ≡ false }
    ensures rtype { same_version (rows.zone (rows.ns rows.sub rows.sub ∷ [])) (rows.zone (rows.alias rows.sub rows.sub ∷ [])) ≡ false }
    ensures more { same_version (rows.zone (rows.address rows.t 1 ∷ [])) (rows.zone (rows.address rows.t 1 ∷ rows.address rows.t 2 ∷ [])) ≡ false }
    ensures fewer { same_version (rows.zone (rows.address rows.t 1 ∷ rows.address rows.t 2 ∷ [])) (rows.zone (rows.address rows.t 1 ∷ [])) ≡ false }
{}

/// What isn't published: an RRset without data, equal data, an alias with two values, DS without NS, an owner in upper case, outside, or out of order, and another apex.
pub fn valid_row()
    ensures valid { law_rows.is_published rows.loud_e (law_rows.beside_soa rows.sub type_ns ((rows.ns rows.sub rows.sub).fields ∷ [])) ≡ true }
    ensures emptied { law_rows.is_published rows.e (law_rows.beside_soa rows.sub type_ns []) ≡ false }
    ensures twice { law_rows.is_published rows.e (law_rows.beside_soa rows.sub type_ns ((rows.ns rows.sub rows.sub).fields ∷ (rows.ns rows.sub rows.loud_sub).fields ∷ [])) ≡ false }
    ensures aliases { law_rows.is_published rows.e (law_rows.beside_soa rows.www type_cname ((rows.alias rows.www rows.a_b).fields ∷ (rows.alias rows.www rows.c_b).fields ∷ [])) ≡ false }
    ensures signer { law_rows.is_published rows.e (law_rows.beside_soa rows.sub type_ds ((rows.ds rows.sub).fields ∷ [])) ≡ false }
    ensures upper_case { law_rows.is_published rows.e (law_rows.beside_soa rows.loud_sub type_ns ((rows.ns rows.sub rows.sub).fields ∷ [])) ≡ false }
    ensures outside { law_rows.is_published rows.e (law_rows.beside_soa (rows.other (codes "a" ∷ [])) type_ns ((rows.ns rows.sub rows.sub).fields ∷ [])) ≡ false }
    ensures out_of_order { law_rows.is_published rows.e (law_rows.beside_soa rows.e type_ns ((rows.ns rows.sub rows.sub).fields ∷ [])) ≡ false }
    ensures other_apex { law_rows.is_published rows.sub (law_rows.beside_soa rows.sub type_ns ((rows.ns rows.sub rows.sub).fields ∷ [])) ≡ false }
{}
