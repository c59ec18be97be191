// Laws of zones that are made from numbers, each the contract of a function with an empty body.
ghost use Rattle.std.specs.Prelude.{◌≡◌, ◌≤◌, ℕ};
ghost use Rattle.zone_generated.specs.Generated as generated;
ghost use Rattle.zone_sync.specs.Serving.{request_at};
ghost use Rattle.zone_sync.specs.Delivery.{IsGranted};
ghost use Rattle.zone_sync.specs.Primaries.{refuser};
ghost use Rattle.zone_sync.specs.Reported.{generated_asking, generating_provider};

use crate::laws::history_primaries_grant;
use tsig_port::Key;
use xfr_server::{HistoryProvider, PrimaryStack, RefuseSvc, Service};

/// The zone of so many hosts, as `gen` sends it, is granted to its secondary over a link that takes 512 octets: all premises of success hold of it.
pub fn generated_zones_are_granted()
    ensures { (size seed longest : ℕ) → 1 ≤ size → size ≤ 100000 → 512 ≤ longest
        → IsGranted
        (λ m. ⟦<PrimaryStack<RefuseSvc, HistoryProvider, Key> as Service<()>>⟧.Sends
        ((refuser, generating_provider size seed), generated.key) (request_at m 0))
        generated_asking 0 longest (generated.generated size seed) }
{
    // For the proof: the law of such a primary.
    history_primaries_grant();
}
