// Worked examples, proved by computation.
ghost use Rattle.std.specs.Prelude.{◌≡◌, ℕ, ◌∷◌, [], ◌-◌, ◌^◌, Some, None};
ghost use Rattle.zone_histories.specs.Histories.{next_version, value_at, before, written, removed};
ghost use Rattle.zone_histories.specs.HistoryRows.{history};

/// A value that was written at versions 1 and 2 and taken away at version 4.
pub fn three_writes()
    ensures early { value_at history 0 ≡ None }
    ensures first { value_at history 1 ≡ Some 10 }
    ensures between { value_at history 3 ≡ Some 20 }
    ensures gone { value_at history 4 ≡ None }
    ensures again { value_at (written history 4 (Some 30)) 9 ≡ Some 30 }
    ensures still { value_at (written history 4 (Some 30)) 3 ≡ Some 20 }
    ensures back { value_at (before history 4) 9 ≡ Some 20 }
    ensures twice { removed history 5 ≡ history }
    ensures alone { removed {T = ℕ} ((4, Some 1) ∷ []) 4 ≡ [] }
    ensures masked { removed {T = ℕ} ((4, Some 1) ∷ []) 5 ≡ (4, Some 1) ∷ (5, None) ∷ [] }
{}

/// Numbers of versions.
pub fn version_numbers()
    ensures first { next_version 0 ≡ Some 1 }
    ensures last { next_version (2 ^ 64 - 1) ≡ None }
{}
