// Laws of what is sent from a zone, each the contract of a function with an empty body.
ghost use Rattle.xfr_signing.specs.Failing.{FailsWhereLong};

use crate::answering::ZoneQueries;
use xfr_providers::StoredZone;
use xfr_services::Service;

/// The service fails only where a request's questions pass 65,535 octets, so that none of its replies can say them.
pub fn queries_fail_where_long<M: Drop, Z: StoredZone>()
    ensures { (zone : Z) → FailsWhereLong (⟦<ZoneQueries<Z> as Service<M>>⟧.Sends zone) }
{}
