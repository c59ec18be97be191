// Worked examples, proved by computation.
ghost use Rattle.std.specs.Prelude.{◌≡◌, ◌∷◌, [], ◌-◌, ◌^◌, true, false};
ghost use Rattle.zone_devices.specs.Calls.{no_calls, fails_next, after_call, after_fault};

/// Of three calls the second fails.
pub fn second_call_fails()
    ensures first { fails_next (no_calls (2 ∷ [])) ≡ false }
    ensures second { fails_next (after_call (no_calls (2 ∷ []))) ≡ true }
    ensures third { fails_next (after_call (after_call (no_calls (2 ∷ [])))) ≡ false }
    ensures counts { after_call (after_call (after_call (no_calls (2 ∷ [])))) ≡ record { failing = 2 ∷ []; made = 3; faults = 1 } }
{}

/// A fault of another cause is counted too; at the greatest number the counts stay.
pub fn faults_are_counted()
    ensures other { after_fault (no_calls []) ≡ record { failing = []; made = 1; faults = 1 } }
    ensures greatest { after_fault (record { failing = []; made = 2 ^ 64 - 1; faults = 2 ^ 64 - 1 }) ≡ record { failing = []; made = 2 ^ 64 - 1; faults = 2 ^ 64 - 1 } }
{}
