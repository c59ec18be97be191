// A question that is answered with records of the answer's own.
ghost use Rattle.zone_handles.specs.Queries.{Queried};

use crate::errors::QueryError;
use dns_name::ToName;
use dns_numbers::Rtype;
use std::alloc::Global;
use zone_lookup::{Answer, look_up};
use zone_reads::ReadZone;

/// What the handle's version has for a name and a type, with records of the answer's own (RFC 1034, 4.3.2; RFC 4592). `OutOfZone` exactly where the
/// name is neither the apex nor below it, `Memory` only where memory runs out.
pub(crate) fn query<N: ToName>(
    zone: &ReadZone,
    alloc: Global,
    qname: &N,
    qtype: Rtype,
) -> Result<Answer, QueryError>
    ensures { Queried zone.now.version (N.labels qname.now) qtype result }
{
    match look_up(zone, qname, qtype) {
        Ok(found) => match found.to_answer(alloc) {
            Ok(answer) => Ok(answer),
            Err(_) => Err(QueryError::Memory),
        },
        Err(_) => Err(QueryError::OutOfZone),
    }
}
