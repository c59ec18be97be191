// A question to a read handle.
ghost use Rattle.std.specs.Prelude.{◌≡◌, true, false, IfOk, OnOk, OnErr};
ghost use Rattle.dns_name.specs.Names.{under};
ghost use Rattle.zone_model.specs.Answer.{answer as answer_of};
ghost use Rattle.zone_lookup.specs.Answers.{answered_by};

use crate::answer_ref::AnswerRef;
use crate::look_up_steps::answer;
use dns_name::ToName;
use dns_numbers::Rtype;
use zone_reads::ReadZone;
use zone_values::OutOfZone;

/// What the handle's version has for a name and a type, without a copy and in no memory: the highest zone cut at or above the name refers, but DS
/// at the cut itself is the zone's own; else a name that exists has its CNAME, whatever is asked below the apex, or the set of the type; else
/// `*` below the closest encloser answers in its place (RFC 1034, 4.3.2; RFC 4592, 3.3; RFC 4035, 3.1.4.1). `OutOfZone` exactly where the
/// name isn't in the zone.
///
/// That is step 3 of RFC 1034, 4.3.2, once: an alias isn't followed, so that its target is a question of its own, in this zone or another. For
/// ANY there is one RRset, that of the least type (RFC 8482, 4.1). Of step 6 there is nothing: a referral's glue alone is added.
pub fn look_up<'v, N: ToName>(
    zone: &'v ReadZone,
    qname: &N,
    qtype: Rtype,
) -> Result<AnswerRef<'v>, OutOfZone>
    ensures inside { OnOk result (under (N.labels qname.now) zone.now.version.apex ≡ true) }
    ensures outside { OnErr result (under (N.labels qname.now) zone.now.version.apex ≡ false) }
    ensures answer { IfOk result (λ a. a ≡ answered_by zone.now.version (answer_of zone.now.version (N.labels qname.now) qtype)) }
{
    if !qname.ends_with(zone.apex_name()) {
        return Err(OutOfZone);
    }
    // For the proof: a published version is valid.
    zone.validity();
    let name = qname.to_key_name();
    let version = zone.contents();
    Ok(AnswerRef::of(version, answer(version, &name.borrowed(), qtype)))
}
