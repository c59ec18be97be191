// A worked example of a session, proved by computation.
ghost use Rattle.std.specs.Prelude.{◌≡◌, [], ◌∷◌, true, false, Some, None};
ghost use Rattle.zone_model.specs.Difference.{difference};
ghost use Rattle.zone_model.specs.ZoneRows as rows;
ghost use Rattle.zone_reads.specs.Session as sessions;
ghost use Rattle.zone_reads.specs.SessionRows as session_rows;

/// A session: a commit publishes what is pending, closed, with the next number; a rollback goes back to the version published; a wish for a difference stays until then.
pub fn session_row()
    ensures committed { sessions.committed session_rows.session false ≡ record { past = sessions.with_commit session_rows.past (record { number = 8; version = rows.zone (rows.soa 1 ∷ rows.address rows.t 1 ∷ []) }); current = record { number = 8; version = rows.zone (rows.soa 1 ∷ rows.address rows.t 1 ∷ []) }; pending = rows.zone (rows.soa 1 ∷ rows.address rows.t 1 ∷ []); compares = false; has_handle = true } }
    ensures bumped { (sessions.committed session_rows.session true).current ≡ record { number = 8; version = rows.zone (rows.soa 2 ∷ rows.address rows.t 1 ∷ []) } }
    ensures rolled_back { sessions.rolled_back session_rows.session ≡ record { past = session_rows.past; current = session_rows.session.current; pending = rows.zone (rows.soa 1 ∷ []); compares = false; has_handle = false } }
    ensures opened { sessions.opened_session session_rows.session false ≡ session_rows.session }
    ensures told { sessions.told_difference session_rows.session true ≡ Some (difference (rows.zone (rows.soa 1 ∷ [])) (rows.zone (rows.soa 2 ∷ rows.address rows.t 1 ∷ []))) }
    ensures same_serial { sessions.told_difference session_rows.session false ≡ None }
    ensures unasked { sessions.told_difference (record session_rows.session { compares = false }) true ≡ None }
{}
