// Read handles, whatever keeps their zone.
ghost use Rattle.std.specs.Prelude.{◌≡◌, true, false, IfOk, OnOk, OnErr};
ghost use Rattle.std.specs.List.{FoldsTo};
ghost use Rattle.dns_name.specs.Names.{under};
ghost use Rattle.zone_model.specs.Answer.{answer};
ghost use Rattle.zone_model.specs.Walk.{next_stop, walk as walk_of};
ghost use Rattle.zone_lookup.specs.Answers.{answered_by};
ghost use Rattle.zone_handles.specs.Queries.{Queried};

use crate::errors::QueryError;
use crate::querying::query;
use crate::walking::walk;
use dns_name::{Labelled, ToName};
use dns_numbers::Rtype;
use std::alloc::Global;
use zone_lookup::{Answer, AnswerRef, OutOfZone, look_up};
use zone_reads::{ReadZone, WalkItem};

/// A read handle: one version of a zone, whatever keeps it.
pub trait ReadableZone {
    ghost use Rattle.zone_model.specs.Commits.{Commit};

    /// The version that the handle stands for, with its number.
    ghost commit_of: { Self → Commit };

    /// What the version has for a name and a type, in no memory (RFC 1034, 4.3.2; RFC 4592). `OutOfZone` exactly where the name is
    /// neither the apex nor below it.
    fn look_up<'v, N: ToName>(&'v self, qname: &N, qtype: Rtype) -> Result<AnswerRef<'v>, OutOfZone>
        ensures inside { OnOk result (under (N.labels qname.now) (commit_of self.now).version.apex ≡ true) }
        ensures outside { OnErr result (under (N.labels qname.now) (commit_of self.now).version.apex ≡ false) }
        ensures answer { IfOk result (λ a. a ≡ answered_by (commit_of self.now).version (answer (commit_of self.now).version (N.labels qname.now) qtype)) };

    /// The same answer with records of its own. `OutOfZone` exactly where the name is neither the apex nor below it, `Memory` only where memory
    /// runs out.
    fn query<N: ToName>(&self, alloc: Global, qname: &N, qtype: Rtype) -> Result<Answer, QueryError>
        ensures { Queried (commit_of self.now).version (N.labels qname.now) qtype result };

    /// The first set after an owner and type: owners in canonical order, types ascending (RFC 4034, 6.1).
    fn next_rrset<N: Labelled>(&self, owner: &N, rtype: Rtype) -> Option<WalkItem<'_>>
        ensures { result ≡ next_stop (commit_of self.now).version (N.labels owner.now) rtype };

    /// Hands each set to `visit`, once, in the same order.
    fn walk<F: FnMut(WalkItem<'_>)>(&self, visit: &mut F)
        requires { F.IsAlwaysCallable visit.old }
        ensures { FoldsTo (λ p x q. F.step p x tt q) visit.old (walk_of (commit_of self.now).version) visit.new };
}

impl ReadableZone for ReadZone {
    ghost commit_of = { λ z. z };

    fn look_up<'v, N: ToName>(
        &'v self,
        qname: &N,
        qtype: Rtype,
    ) -> Result<AnswerRef<'v>, OutOfZone> {
        look_up(self, qname, qtype)
    }

    fn query<N: ToName>(
        &self,
        alloc: Global,
        qname: &N,
        qtype: Rtype,
    ) -> Result<Answer, QueryError> {
        query(self, alloc, qname, qtype)
    }

    fn next_rrset<N: Labelled>(&self, owner: &N, rtype: Rtype) -> Option<WalkItem<'_>> {
        ReadZone::next_rrset(self, owner, rtype)
    }

    fn walk<F: FnMut(WalkItem<'_>)>(&self, visit: &mut F) {
        walk(self, visit);
    }
}
