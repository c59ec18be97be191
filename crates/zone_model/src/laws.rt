// Laws of versions and handles, each the contract of a function with an empty body.
ghost use Rattle.std.specs.Prelude.{◌≡◌, [], ◌∷◌, map, true, ℕ, ◌+◌, List};
ghost use Rattle.zone_model.specs.Version.{same_version};
ghost use Rattle.std.specs.Ordering.{nat_cmp};
ghost use Rattle.std.specs.BTreeMap.{insert_entry};
ghost use Rattle.zone_model.specs.Commits.{HandlesKeep};
ghost use Rattle.std.specs.Cmp.{IsEquivalence};
ghost use Rattle.std.specs.List.{list_all};
ghost use Rattle.zone_model.specs.ZoneRows as rows;
ghost use Rattle.zone_model.specs.LawRows as law_rows;

/// A handle's version stays, whatever steps come.
pub fn handles_keep()
    ensures { HandlesKeep }
{}

/// A map whose values are seen through a function takes an entry as the seen map does.
pub fn seen_entries()
    ensures { (es : List (ℕ × ℕ)) (k v : ℕ) → map (λ e. (e.0, e.1 + 1)) (insert_entry nat_cmp es k v) ≡ insert_entry nat_cmp (map (λ e. (e.0, e.1 + 1)) es) k (v + 1) }
{}

/// Being the same is an equivalence of versions.
pub fn same_is_equivalence()
    ensures { IsEquivalence same_version }
{}

/// A version that passes the test may be published, and those of the example's history do, so the premises of the laws can be met.
pub fn published_row()
    ensures test { law_rows.PublishedByTest }
    ensures history { list_all (law_rows.is_published rows.e) (rows.history_1 ∷ rows.history_2 ∷ rows.history_3 ∷ []) ≡ true }
{}
