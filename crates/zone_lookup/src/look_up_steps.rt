// The steps of a look-up: cuts first, then the name, then the wildcard below its closest encloser (RFC 1034, 4.3.2, step 3).
ghost use Rattle.std.specs.Prelude.{◌≡◌, ◌≤◌, true, false, length, IfSome};
ghost use Rattle.dns_name.specs.Names.{under, wildcard_below, name_wire};
ghost use Rattle.zone_model.specs.Version.{IsValid, exists, is_cut};
ghost use Rattle.zone_model.specs.Answer.{answer, answer_at, alias_at, at_cut, closest_encloser, first_set, from_wildcard, highest_cut, own_sets, sets_of};

use crate::content::LentAnswer;
use dns_name::{KeyName, NameOctets, NameRef, ToName};
use dns_numbers::Rtype;
use zone_reads::exists;
use zone_versions::ZoneVersion;

/// The highest zone cut at a name or above it (RFC 1034, 4.2.1).
fn highest_cut(version: &ZoneVersion, name: &NameRef<'_>) -> Option<KeyName>
    ensures highest { result ≡ highest_cut version.now name.now }
    ensures cut { IfSome result (λ c. is_cut version.now c ≡ true) }
{
    let mut highest = None;
    let mut rest = name.borrowed();
    loop {
        if version.is_cut(&rest) {
            highest = Some(rest.in_place());
        }
        match rest.split_first() {
            Some((_, parent)) => rest = parent,
            None => return highest,
        }
    }
}

/// The first set of an owner by type, which a question for any type gets (RFC 1035, 3.2.3).
fn first_set<'v>(version: &'v ZoneVersion, name: &NameRef<'_>) -> LentAnswer<'v>
    requires { IsValid version.now }
    ensures { result ≡ first_set (sets_of version.now name.now) }
{
    match version.first_from(name) {
        Some(found) => {
            if found.owner().to_name().name_eq(name) {
                LentAnswer::set_or_no_data(found.rtype(), Some(found.set()))
            } else {
                LentAnswer::set_or_no_data(found.rtype(), None)
            }
        }
        None => LentAnswer::set_or_no_data(Rtype::ANY, None),
    }
}

/// What a name below no cut has: below the apex its CNAME, else the set of the type (RFC 1034, 4.3.2, step 3a).
#[tactic(auto, using(zone_reads::proofs::LentTypes::lent_set, zone_reads::proofs::LentTypes::lent_type))]
fn own_sets<'v>(version: &'v ZoneVersion, name: &NameRef<'_>, rtype: Rtype) -> LentAnswer<'v>
    requires { IsValid version.now }
    ensures { result ≡ own_sets version.now name.now rtype (alias_at version.now name.now) }
{
    if version.is_below_apex(name) {
        if let Some(target) = version.set_at(name, Rtype::CNAME) {
            return LentAnswer::alias(target);
        }
    }
    if rtype == Rtype::ANY {
        return first_set(version, name);
    }
    LentAnswer::set_or_no_data(rtype, version.set_at(name, rtype))
}

/// What a zone cut at a name or above it answers: a referral, but DS at the cut itself is the parent's own (RFC 1034, 4.3.2, step 3b; RFC 4035,
/// 3.1.4.1).
#[tactic(auto, using(zone_reads::proofs::LentTypes::lent_set, zone_reads::proofs::LentTypes::lent_type))]
fn at_cut<'v>(
    version: &'v ZoneVersion,
    name: &NameRef<'_>,
    rtype: Rtype,
    cut: KeyName,
) -> LentAnswer<'v>
    requires { is_cut version.now cut ≡ true }
    ensures { result ≡ at_cut version.now name.now rtype cut }
{
    let signer = version.set_at(&cut, Rtype::DS);
    if rtype == Rtype::DS && name.name_eq(&cut) {
        return LentAnswer::set_or_no_data(Rtype::DS, signer);
    }
    match version.set_at(&cut, Rtype::NS) {
        Some(servers) => LentAnswer::referral(cut.into_canonical(), servers, signer),
        None => LentAnswer::name_error(),
    }
}

/// What a name that exists, or has a cut above it, answers.
fn answer_at<'v>(
    version: &'v ZoneVersion,
    name: &NameRef<'_>,
    rtype: Rtype,
    cut: Option<KeyName>,
) -> LentAnswer<'v>
    requires valid { IsValid version.now }
    requires cut { IfSome cut (λ c. is_cut version.now c ≡ true) }
    ensures { result ≡ answer_at version.now name.now rtype cut }
{
    match cut {
        Some(cut) => at_cut(version, name, rtype, cut),
        None => own_sets(version, name, rtype),
    }
}

/// `*` below a name (RFC 4592, 2.1.1).
fn wildcard_below(name: &NameRef<'_>) -> KeyName
    requires { length (name_wire name.now) ≤ 253 }
    ensures { result ≡ wildcard_below name.now }
{
    let mut octets = NameOctets::from_slice(b"\x01*");
    let _ = octets.append(name.as_slice());
    KeyName::from_wire(octets)
}

/// `*` below the closest encloser of a name that doesn't exist (RFC 4592, 3.3.1).
fn source_of_synthesis(version: &ZoneVersion, name: &NameRef<'_>) -> KeyName
    requires valid { IsValid version.now }
    requires inside { under name.now version.now.apex ≡ true }
    requires absent { exists version.now name.now ≡ false }
    ensures { result ≡ wildcard_below (closest_encloser version.now name.now) }
{
    let mut rest = name.borrowed();
    while let Some((_, parent)) = rest.split_first() {
        // For the proof: what is a name has room for `*` above its first label.
        let _ = rest.as_slice();
        if exists(version, &parent) {
            return wildcard_below(&parent);
        }
        rest = parent;
    }
    KeyName::root()
}

/// What a version answers to a question whose name is in the zone (RFC 1034, 4.3.2; RFC 4592, 3.3.1).
pub(crate) fn answer<'v>(
    version: &'v ZoneVersion,
    name: &NameRef<'_>,
    rtype: Rtype,
) -> LentAnswer<'v>
    requires valid { IsValid version.now }
    requires inside { under name.now version.now.apex ≡ true }
    ensures { result ≡ answer version.now name.now rtype }
{
    let cut = highest_cut(version, name);
    if cut.is_some() || exists(version, name) {
        return answer_at(version, name, rtype, cut);
    }
    let source = source_of_synthesis(version, name);
    from_wildcard(version, &source.borrowed(), rtype)
}

/// What a wildcard answers for the names that it covers, where it exists (RFC 4592, 3.3.2 and 4.2).
fn from_wildcard<'v>(
    version: &'v ZoneVersion,
    wildcard: &NameRef<'_>,
    rtype: Rtype,
) -> LentAnswer<'v>
    requires { IsValid version.now }
    ensures { result ≡ from_wildcard version.now wildcard.now rtype }
{
    if exists(version, wildcard) {
        answer_at(version, wildcard, rtype, highest_cut(version, wildcard))
    } else {
        LentAnswer::name_error()
    }
}
