// Worked examples of transfers that have to succeed, proved by computation.
ghost use Rattle.std.specs.Prelude.{◌≡◌, List, [], ◌∷◌};
ghost use Rattle.zone_model.specs.Difference.{Difference};
ghost use Rattle.zone_model.specs.TransferText.{Axfr, Ixfr};
ghost use Rattle.zone_model.specs.ZoneRows as rows;
ghost use Rattle.zone_sync.specs.Serving.{request_at};
ghost use Rattle.zone_sync.specs.Fitting.{BaseMatches, Fits, answer_room, sent_text};
ghost use Rattle.zone_sync.specs.Delivery.{IsGranted};
ghost use Rattle.zone_sync.specs.Primaries.{refuser};
ghost use Rattle.zone_sync.specs.Grants.{history_offer};
ghost use Rattle.zone_sync.specs.GrantRows as grants;

use crate::laws::history_primaries_grant;
use tsig_port::Key;
use xfr_server::{HistoryProvider, PrimaryStack, RefuseSvc, Service};

/// What is sent of a history of three versions: to one who asks for the whole zone its last version, to one
/// who has the first the two differences, and to one who has the last its SOA alone.
pub fn sent_row()
    ensures whole { sent_text (grants.asks Axfr rows.empty_zone) (grants.offered Axfr rows.empty_zone)
        ≡ grants.whole }
    ensures changes { sent_text (grants.asks Ixfr rows.history_1) (grants.offered Ixfr rows.history_1)
        ≡ rows.history_text }
    ensures nothing_newer { sent_text (grants.asks Ixfr rows.history_3)
        (grants.offered Ixfr rows.history_3) ≡ rows.soa 3 ∷ [] }
{}

/// The premises of success can be met together, in either mode: that primary grants the request of each of
/// these, over a link that takes 65,535 octets. Here the whole zone is asked for, which is sent the same way
/// whatever differences are offered with it.
pub fn whole_row()
    ensures untold { (differences : List Difference) → Fits (grants.asks Axfr rows.empty_zone) grants.key 1000
        (grants.with_differences differences) }
    ensures fits { Fits (grants.asks Axfr rows.empty_zone) grants.key 1000 (grants.offered Axfr rows.empty_zone) }
    ensures granted { IsGranted
        (λ m. ⟦<PrimaryStack<RefuseSvc, HistoryProvider, Key> as Service<()>>⟧.Sends
        ((refuser, grants.provider), grants.key) (request_at m 1000))
        (grants.asks Axfr rows.empty_zone) 1000 65535 rows.history_3 }
{
    // For the proof: the law of such a primary.
    history_primaries_grant();
}

/// .. here what is newer, by one who has the first version, and is told two differences ..
pub fn changes_row()
    ensures fits { Fits (grants.asks Ixfr rows.history_1) grants.key 1300 (grants.offered Ixfr rows.history_1) }
    ensures granted { IsGranted
        (λ m. ⟦<PrimaryStack<RefuseSvc, HistoryProvider, Key> as Service<()>>⟧.Sends
        ((refuser, grants.provider), grants.key) (request_at m 1300))
        (grants.asks Ixfr rows.history_1) 1300 65535 rows.history_3 }
{
    // For the proof: the law of such a primary.
    history_primaries_grant();
}

/// .. and here by one who has the last, and there is nothing newer.
pub fn caught_up_row()
    ensures fits { Fits (grants.asks Ixfr rows.history_3) grants.key 700 (grants.offered Ixfr rows.history_3) }
    ensures granted { IsGranted
        (λ m. ⟦<PrimaryStack<RefuseSvc, HistoryProvider, Key> as Service<()>>⟧.Sends
        ((refuser, grants.provider), grants.key) (request_at m 700))
        (grants.asks Ixfr rows.history_3) 700 65535 rows.history_3 }
{
    // For the proof: the law of such a primary.
    history_primaries_grant();
}

/// .. and by one who spells the key's name in capitals, and signs with MACs of 16 octets: the primary, whose own have 32, takes such, and one
/// that wants 32 doesn't.
pub fn one_key_row()
    ensures fits { Fits grants.half_asks grants.lenient_key 1000 (history_offer grants.provider grants.half_asks) }
    ensures granted { IsGranted
        (λ m. ⟦<PrimaryStack<RefuseSvc, HistoryProvider, Key> as Service<()>>⟧.Sends
        ((refuser, grants.provider), grants.lenient_key) (request_at m 1000))
        grants.half_asks 1000 65535 rows.history_3 }
    ensures refused { Fits grants.half_asks grants.key 1000 (history_offer grants.provider grants.half_asks) → ⊥ }
{
    // For the proof: the law of such a primary.
    history_primaries_grant();
}

/// The room that such a primary's signature leaves, whatever the secondary's takes.
pub fn room_row()
    ensures { answer_room grants.half_asks grants.lenient_key ≡ 65434 }
{}

/// They aren't met where the moments are 301 seconds apart, or where no further version can be numbered; nor
/// where the base isn't what the differences start at, is ahead of the offered version, or has its serial
/// and not its content.
pub fn unmet_row()
    ensures late { Fits (grants.asks Ixfr rows.history_1) grants.key 1301 (grants.offered Ixfr rows.history_1) → ⊥ }
    ensures no_number { Fits grants.asks_last grants.key 1000 (grants.offered Axfr rows.empty_zone) → ⊥ }
    ensures not_first { BaseMatches (rows.zone (rows.soa 1 ∷ [])) (grants.offered Ixfr rows.history_1)
        (rows.history_1 ∷ rows.history_2 ∷ rows.history_3 ∷ []) → ⊥ }
    ensures ahead { BaseMatches (rows.zone (rows.soa 4 ∷ [])) (grants.offered Ixfr rows.history_3)
        (rows.history_3 ∷ []) → ⊥ }
    ensures other_content { BaseMatches (rows.zone (rows.soa 3 ∷ []))
        (grants.offered Ixfr rows.history_3) (rows.history_3 ∷ []) → ⊥ }
{}
