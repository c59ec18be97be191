// Where a record set stands in a version.
ghost use Rattle.std.specs.Prelude.{◌≡◌};
ghost use Rattle.dns_name.specs.Names.{fold, spelling_cmp};
ghost use Rattle.zone_model.specs.Version.{key_cmp};

use dns_name::{KeyName, Labelled, compare_spelling};
use dns_numbers::Rtype;
use std::alloc::{AllocError, Global};
use std::cmp::Ordering;
use std::marker::Model;

/// Where an RRset stands: its owner in lower case, and its type.
#[derive(Debug, Drop)]
pub struct SetKey {
    owner: KeyName,
    rtype: Rtype,
}

impl Model for SetKey {
    ghost use Rattle.std.specs.Prelude.{◌≡◌};
    ghost use Rattle.dns_name.specs.Names.{fold};
    ghost use Rattle.zone_model.specs.Version.{Key};

    ghost Value = { Key };

    ghost view = { λ k. (k.owner, k.rtype) };

    ghost invariant = { λ k. fold k.owner ≡ k.owner };
}

impl SetKey {
    /// Where the RRset of an owner and type stands.
    #[tactic(auto, using(crate::proofs::InLowerCase::stays_folded))]
    pub fn new<N: Labelled>(owner: &N, rtype: Rtype) -> SetKey
        ensures { result ≡ (fold (N.labels owner.now), rtype) }
    {
        SetKey {
            owner: owner.to_canonical(),
            rtype,
        }
    }

    /// The owner, in lower case.
    pub fn owner(&self) -> &KeyName
        ensures { result.now ≡ self.now.0 }
    {
        &self.owner
    }

    /// The type.
    pub fn rtype(&self) -> Rtype
        ensures { result ≡ self.now.1 }
    {
        self.rtype
    }

    /// For proofs: the owner is in lower case. It does nothing.
    pub fn tell_folded(&self)
        ensures { fold self.now.0 ≡ self.now.0 }
    {
        let _rtype = self.rtype;
    }
}

impl Clone for SetKey {
    ghost is_clone = { λ k copy. copy ≡ k };

    fn clone(&self) -> Result<SetKey, AllocError> {
        Ok(SetKey {
            owner: self.owner.duplicate(),
            rtype: self.rtype,
        })
    }
}

impl PartialEq for SetKey {
    ghost use Rattle.std.specs.Cmp.{eq_by_cmp_equiv, partial_equiv_from_equiv};
    ghost use Rattle.std.specs.Ordering.{eq_by_cmp};
    ghost use Rattle.zone_model.specs.Version.{key_cmp};
    ghost use Rattle.zone_model.proofs.Folded.{key_total};

    ghost eq = { eq_by_cmp key_cmp };

    ghost laws = { partial_equiv_from_equiv (eq_by_cmp_equiv key_total) };

    fn eq(&self, other: &SetKey) -> bool {
        self.cmp(other) == Ordering::Equal
    }
}

impl Eq for SetKey {
    ghost use Rattle.std.specs.Cmp.{eq_by_cmp_equiv};
    ghost use Rattle.zone_model.proofs.Folded.{key_total};

    ghost laws = { eq_by_cmp_equiv key_total };
}

impl PartialOrd for SetKey {
    ghost use Rattle.std.specs.Cmp.{partial_order_from_total};
    ghost use Rattle.std.specs.Ordering.{as_partial_cmp};
    ghost use Rattle.zone_model.specs.Version.{key_cmp};
    ghost use Rattle.zone_model.proofs.Folded.{key_total};

    ghost partial_cmp = { as_partial_cmp key_cmp };

    ghost laws = { partial_order_from_total key_total };

    fn partial_cmp(&self, other: &SetKey) -> Option<Ordering> {
        Some(self.cmp(other))
    }
}

impl Ord for SetKey {
    ghost use Rattle.std.specs.Prelude.{refl};
    ghost use Rattle.zone_model.specs.Version.{key_cmp};
    ghost use Rattle.zone_model.proofs.Folded.{key_total};

    ghost cmp = { key_cmp };

    ghost total = { key_total };

    ghost matches_partial_cmp = { λ k l. refl };

    ghost matches_eq = { λ k l. refl };

    fn cmp(&self, other: &SetKey) -> Ordering {
        compare_owners(&self.owner, &other.owner).then(self.rtype.cmp(&other.rtype))
    }
}

/// The order of two names as they are spelled. The first labels alone are compared where all others are the same, as in one zone they often are.
fn compare_owners(a: &KeyName, b: &KeyName) -> Ordering
    ensures { result ≡ spelling_cmp a.now b.now }
{
    let (left, right) = (a.borrowed(), b.borrowed());
    if let Some((x, left_tail)) = left.split_first()
        && let Some((y, right_tail)) = right.split_first()
        && left_tail.as_slice() == right_tail.as_slice()
    {
        return x.as_slice().cmp(y.as_slice());
    }
    compare_spelling(a, b)
}
