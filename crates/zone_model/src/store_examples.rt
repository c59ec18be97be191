// Worked examples of the store, proved by computation.
ghost use Rattle.std.specs.Prelude.{◌≡◌, [], ◌∷◌, map, codes, true, false, Some, None, length, ℕ};
ghost use Rattle.zone_model.specs.Answer.{answer, NoData, NameError, answer_section, authority_section, glue_section, is_authoritative, rcode_of};
ghost use Rattle.zone_model.specs.Walk.{walk, records_of_version};
ghost use Rattle.dns_numbers.specs.Codes.{type_a, type_ns, type_ds};
ghost use Rattle.zone_model.specs.Edits.{close, bump, delete_all};
ghost use Rattle.zone_model.specs.Difference.{diffable};
ghost use Rattle.zone_model.specs.TransferText.{Ixfr};
ghost use Rattle.zone_model.specs.Spells.{spelling};
ghost use Rattle.std.specs.Result.{result_unwrap_or};
ghost use Rattle.zone_model.specs.ZoneRows as rows;
ghost use Rattle.zone_model.specs.Zones as zones;
ghost use Rattle.zone_model.specs.Classify as classes;

/// The walk of a first zone: NS, SOA, then the name server's addresses; an absent name is an error with the SOA.
pub fn first_row()
    ensures absent { answer rows.first_zone rows.www type_a ≡ NameError }
    ensures authority { authority_section rows.first_zone (answer rows.first_zone rows.www type_a) ≡ rows.soa 1 ∷ [] }
    ensures records { records_of_version rows.first_zone ≡ rows.ns rows.e rows.ns_host ∷ rows.soa 1 ∷ rows.address rows.ns_host 1 ∷ rows.address rows.ns_host 2 ∷ [] }
{}

/// A name below a cut is referred, with the name server's address from the zone as glue.
pub fn referral_row()
    ensures flags { map (λ s. s.below_cut) (walk rows.cut_zone) ≡ false ∷ true ∷ true ∷ [] }
    ensures referred { is_authoritative (answer rows.cut_zone rows.under_sub type_a) ≡ false }
    ensures authority { authority_section rows.cut_zone (answer rows.cut_zone rows.under_sub type_a) ≡ rows.ns rows.sub rows.sub ∷ [] }
    ensures glue { glue_section rows.cut_zone (answer rows.cut_zone rows.under_sub type_a) ≡ rows.address rows.sub 3 ∷ [] }
{}

/// A name that only has names below it exists, and has no data.
pub fn hollow_row()
    ensures found { answer_section rows.hollow_zone rows.a_b (answer rows.hollow_zone rows.a_b type_a) ≡ rows.address rows.a_b 9 ∷ [] }
    ensures hollow { answer rows.hollow_zone rows.only_b type_a ≡ NoData }
    ensures absent { answer rows.hollow_zone rows.c_b type_a ≡ NameError }
{}

/// A cut at a wildcard refers the names that it stands for, and none below a name that exists.
pub fn wildcard_row()
    ensures referred { authority_section rows.wild_zone (answer rows.wild_zone (rows.w (codes "x" ∷ [])) type_a) ≡ rows.ns (rows.w (codes "*" ∷ [])) (rows.other (codes "ns" ∷ [])) ∷ [] }
    ensures hollow { answer rows.wild_zone (rows.w (codes "f" ∷ [])) type_a ≡ NoData }
    ensures absent { answer rows.wild_zone (rows.w (codes "z" ∷ codes "f" ∷ [])) type_a ≡ NameError }
{}

/// A wildcard's own data stand at the name that was asked for; an alias answers for each type, but at the apex; of any type the least; a name without data has the SOA.
pub fn answer_row()
    ensures wildcard { answer_section (rows.zone (rows.soa 1 ∷ rows.address (rows.w (codes "*" ∷ [])) 6 ∷ [])) (rows.w (codes "x" ∷ [])) (answer (rows.zone (rows.soa 1 ∷ rows.address (rows.w (codes "*" ∷ [])) 6 ∷ [])) (rows.w (codes "x" ∷ [])) type_a) ≡ rows.address (rows.w (codes "x" ∷ [])) 6 ∷ [] }
    ensures alias { answer_section rows.alias_zone rows.www (answer rows.alias_zone rows.www type_a) ≡ rows.alias rows.www rows.t ∷ [] }
    ensures apex_alias { answer rows.alias_zone rows.e type_a ≡ NoData }
    ensures any { answer_section rows.first_zone rows.e (answer rows.first_zone rows.e 255) ≡ rows.ns rows.e rows.ns_host ∷ [] }
    ensures no_data { authority_section rows.first_zone (answer rows.first_zone rows.ns_host 16) ≡ rows.soa 1 ∷ [] }
    ensures codes { map rcode_of (answer rows.first_zone rows.ns_host type_a ∷ answer rows.first_zone rows.ns_host 16 ∷ answer rows.first_zone rows.www type_a ∷ answer rows.cut_zone rows.under_sub type_a ∷ answer rows.alias_zone rows.www type_a ∷ []) ≡ 0 ∷ 0 ∷ 3 ∷ 0 ∷ 0 ∷ [] }
    ensures signer_below { is_authoritative (answer rows.signed_zone rows.under_sub type_ds) ≡ false }
    ensures glue { glue_section rows.six_zone (answer rows.six_zone rows.under_sub type_a) ≡ rows.address rows.sub 3 ∷ rows.six rows.sub ∷ [] }
{}

/// The names that exist, in order.
pub fn nodes_row()
    ensures { zones.nodes rows.hollow_zone ≡ rows.e ∷ rows.only_b ∷ rows.a_b ∷ [] }
{}

/// An empty zone has its apex alone.
pub fn empty_row()
    ensures apex { answer rows.empty_zone rows.e type_a ≡ NoData }
    ensures authority { authority_section rows.empty_zone (answer rows.empty_zone rows.e type_a) ≡ [] }
    ensures absent { answer rows.empty_zone rows.www type_a ≡ NameError }
    ensures stops { walk rows.empty_zone ≡ [] }
    ensures nodes { zones.nodes rows.empty_zone ≡ rows.e ∷ [] }
{}

/// A referral with a DS at the cut itself, and the version without the cut.
pub fn cut_row()
    ensures signer { answer_section rows.signed_zone rows.sub (answer rows.signed_zone rows.sub type_ds) ≡ rows.ds rows.sub ∷ [] }
    ensures authority { authority_section rows.signed_zone (answer rows.signed_zone rows.sub type_a) ≡ rows.ns rows.sub (rows.other (codes "a" ∷ [])) ∷ rows.ns rows.sub (rows.other (codes "b" ∷ [])) ∷ rows.ds rows.sub ∷ [] }
    ensures absent { answer (close (result_unwrap_or (delete_all rows.signed_zone (rows.ns rows.sub (rows.other (codes "b" ∷ [])) ∷ rows.ns rows.sub (rows.other (codes "a" ∷ [])) ∷ [])) rows.empty_zone)) rows.sub type_ns ≡ NameError }
{}

/// Both name servers go before the signer; the last NS leaves the DS, which the new version then drops.
pub fn signed_row()
    ensures spelt { map (λ v. length v.sets) (spelling Ixfr (rows.soa 2 ∷ rows.soa 1 ∷ rows.ns rows.sub (rows.other (codes "a" ∷ [])) ∷ rows.ns rows.sub (rows.other (codes "b" ∷ [])) ∷ rows.soa 2 ∷ rows.soa 2 ∷ []) rows.signed_zone).versions ≡ 3 ∷ 1 ∷ [] }
{}

/// The serial after the greatest is 0, and is newer.
pub fn bump_row()
    ensures { let last = rows.zone (rows.soa_octets (255 ∷ 255 ∷ 255 ∷ 255 ∷ []) ∷ []) in
        (bump last last ≡ rows.zone (rows.soa 0 ∷ [])) × (diffable last (bump last last) ≡ true) }
{}

/// What stands beside a cut or an alias is refused, with the type in its way.
pub fn classify_row()
    ensures illegal { classes.classify (record { apex = rows.e; class = 1; accepted = rows.ns rows.sub rows.sub ∷ rows.ds rows.sub ∷ [] }) (rows.rr rows.sub 16 []) ≡ classes.Rejected (classes.IllegalRecord 43) }
    ensures glue { classes.classify (record { apex = rows.e; class = 1; accepted = rows.ns rows.sub rows.sub ∷ rows.ds rows.sub ∷ [] }) (rows.address rows.sub 1) ≡ classes.Accepted classes.Normal }
    ensures alias { classes.classify (record { apex = rows.e; class = 1; accepted = rows.address rows.sub 1 ∷ rows.ns rows.sub rows.sub ∷ [] }) (rows.rr rows.sub 5 []) ≡ classes.Rejected (classes.IllegalCname 1) }
    ensures apex_of_zone { zones.find_zone {Z = ℕ} (((1, rows.e), 7) ∷ ((1, rows.sub), 8) ∷ []) 1 rows.loud_e ≡ Some 7 }
    ensures class_of_zone { zones.find_zone {Z = ℕ} (((1, rows.e), 7) ∷ ((1, rows.sub), 8) ∷ []) 3 rows.under_sub ≡ None }
    ensures zone { zones.find_zone {Z = ℕ} (((1, rows.e), 7) ∷ ((1, rows.sub), 8) ∷ []) 1 rows.under_sub ≡ Some 8 }
{}
