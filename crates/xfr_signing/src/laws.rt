// Laws of what the services send and where no reply can be made, each the contract of a function with an empty body.
ghost use Rattle.std.specs.Prelude.{◌≡◌, true, List, Option};
ghost use Rattle.tsig_port.specs.ServerCheck.{verdict};
ghost use Rattle.xfr_signing.specs.Failing.{fails, FailsWhereLong, IsTooLong, RepliesFailWhereLong};
ghost use Rattle.xfr_services.specs.Items.{Sending};
ghost use Rattle.xfr_signing.specs.SignedServing.{KeysGoOn, StoresAreNamed};
ghost use Rattle.xfr_services.specs.declared.requests.Request.{Request as RequestOf};

use crate::signing::TsigMiddlewareSvc;
use tsig_port::KeyStore;
use xfr_services::{RefuseSvc, Service};

/// A reply without records fails exactly where header and questions pass 65,535 octets, so a service that refuses everything fails only there.
pub fn refusals_fail_where_long()
    ensures replies { RepliesFailWhereLong }
    ensures service { (s : RefuseSvc) → FailsWhereLong (⟦<RefuseSvc as Service<()>>⟧.Sends s) }
{}

/// Above a service that fails only for questions past 65,535 octets, the one that checks and signs fails only where the questions, with the
/// key's TSIG where the request was accepted, pass that as they came, or as they are handed on.
pub fn signed_replies_fail_where_long<N: Service<Option<KS::Key>>, KS: KeyStore>()
    ensures { (next : N) (keys : KS) → FailsWhereLong (N.Sends next) → (r : RequestOf (Unit {0})) (sent : Option (List Sending))
        → ⟦<TsigMiddlewareSvc<N, KS> as Service<()>>⟧.Sends (next, keys) r sent → fails sent ≡ true → IsTooLong r (verdict (KS.key_of keys) r.at r.message) }
{}

/// A request that a key accepted is handed on with that key, where each key of the store has the name and algorithm that it is found by.
pub fn accepted_requests_have_their_key<KS: KeyStore>()
    ensures { (keys : KS) → KeysGoOn KS.Key.the_key (KS.key_of keys) }
{}

/// The stores of one key and of many find each key by its own name and algorithm.
pub fn stores_are_named()
    ensures { StoresAreNamed }
{}
