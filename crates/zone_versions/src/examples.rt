// Worked examples of how many nodes edits build, each the contract of a function with an empty body.
ghost use Rattle.std.specs.Prelude.{◌≡◌, true, false};
ghost use Rattle.zone_versions.specs.Rows as rows;
ghost use Rattle.zone_model.specs.Edits.{clear};
ghost use Rattle.zone_versions.specs.Trees.{in_tree, built, built_by_clear};

/// The first address of a zone, two labels below the apex, has a node built for each label; the next beside it its own; a text there the owner's anew.
pub fn nodes_of_names_that_begin()
    ensures two { built rows.nothing rows.address rows.name_ab 1 ≡ 2 }
    ensures beside { built rows.address rows.two_addresses rows.name_cb 1 ≡ 1 }
    ensures anew { built rows.two_addresses rows.with_text rows.name_cb 16 ≡ 1 }
    ensures between { in_tree rows.address rows.name_b ≡ true }
{}

/// Taking the text out builds the owner's node anew; taking both addresses out builds none, and leaves the apex's node alone.
pub fn nodes_of_names_that_end()
    ensures anew { built rows.with_text rows.without_text rows.name_cb 16 ≡ 1 }
    ensures none { built rows.without_text rows.one_address rows.name_cb 1 ≡ 0 }
    ensures last { built rows.one_address rows.no_address rows.name_ab 1 ≡ 0 }
    ensures stays { in_tree rows.one_address rows.name_b ≡ true }
    ensures gone { in_tree rows.no_address rows.name_b ≡ false }
    ensures apex { in_tree rows.no_address rows.apex ≡ true }
{}

/// Clearing one of two names leaves the name above both, and clearing that takes both; neither builds a node. Clearing the apex builds its node anew, unless
/// there are no RRsets.
pub fn nodes_of_names_that_are_cleared()
    ensures stays { in_tree (clear rows.two_addresses rows.name_ab) rows.name_b ≡ true }
    ensures gone { in_tree (clear rows.two_addresses rows.name_b) rows.name_cb ≡ false }
    ensures above { in_tree (clear rows.two_addresses rows.name_b) rows.name_b ≡ false }
    ensures none { built_by_clear rows.two_addresses rows.name_b ≡ 0 }
    ensures apex { built_by_clear rows.two_addresses rows.apex ≡ 1 }
    ensures nothing { built_by_clear rows.nothing rows.apex ≡ 0 }
{}
