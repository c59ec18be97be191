// The parts of an answer, with records of their own.
ghost use Rattle.std.specs.Prelude.{◌≡◌, ◌++◌, OnOk, IfOk, Some, None, map, option_copied};
ghost use Rattle.dns_rdata.specs.ZoneData.{rtype_of, data_fields};
ghost use Rattle.zone_values.specs.TypedSets.{set_of, first_record};
ghost use Rattle.zone_lookup.specs.Replies.{authority};
ghost use Rattle.zone_lookup.specs.Answers.{answer_of, HasItsTypes};
ghost use Rattle.zone_lookup.specs.Owned.{additional_for, alias_content, authority_for, content_of, first_apex_soa, reply_of, soa_authority};

use crate::answer::Answer;
use crate::answer_content::AnswerContent;
use crate::answer_ref::AnswerRef;
use crate::content::Content;
use crate::parts::{AnswerAdditional, AnswerAuthority};
use dns_name::{KeyName, Labelled};
use dns_numbers::{Rcode, Rtype};
use std::alloc::{AllocError, Global};
use zone_reads::{AnswerRecords, own_option, own_records, own_set};
use zone_values::{Rrset, SharedRr, SharedRrset};
use zone_versions::ZoneVersion;

impl<'v> AnswerRef<'v> {
    /// The answer with records of its own, which a message says (`Answer::to_message`): the set found or the first record of an alias; NS and DS of
    /// a referral, with its glue as required records; the first apex SOA record of a negative answer (RFC 1034, 4.3.2; RFC 2308, 3). Refused
    /// only where memory runs out.
    pub fn to_answer(&self, alloc: Global) -> Result<Answer, AllocError>
        ensures { IfOk result (λ a. a ≡ reply_of self.now) }
    {
        let lent = self.content();
        let content = own_content(alloc, lent)?;
        let mut answer = bare_answer(self.rcode(), content, self.authoritative());
        match put_records(alloc, self.version(), lent, &mut answer) {
            Ok(()) => Ok(answer),
            Err(error) => {
                drop(answer);
                Err(error)
            }
        }
    }
}

/// An answer without authority and additional records.
fn bare_answer(rcode: Rcode, content: AnswerContent, authoritative: bool) -> Answer
    ensures { result ≡ record { rcode = rcode; content = content; additional = None; authority = None; authoritative = authoritative } }
{
    let mut answer = Answer::new(rcode);
    answer.set_authoritative(authoritative);
    match content {
        AnswerContent::Data(set) => answer.add_answer(set),
        AnswerContent::Cname(target) => answer.add_cname(target),
        AnswerContent::NoData => {}
    }
    answer
}

/// Puts the authority and additional records of what is lent to an answer without them.
fn put_records(
    alloc: Global,
    version: &ZoneVersion,
    lent: &Content<'_>,
    answer: &mut Answer,
) -> Result<(), AllocError>
    requires types { HasItsTypes lent.now }
    requires authority { answer.old.authority ≡ None }
    requires additional { answer.old.additional ≡ None }
    ensures { OnOk result (answer.new ≡ record answer.old {
      additional = additional_for version.now (answer_of lent.now);
      authority = authority_for version.now (answer_of lent.now);
    }) }
{
    if let Some(authority) = own_authority(alloc, version, lent)? {
        answer.set_authority(authority);
    }
    if let Some(additional) = own_additional(alloc, version, lent)? {
        answer.set_additional(additional);
    }
    Ok(())
}

/// What is said of the name: the first record of an alias, or the set found.
fn own_content(alloc: Global, lent: &Content<'_>) -> Result<AnswerContent, AllocError>
    requires { HasItsTypes lent.now }
    ensures { IfOk result (λ c. c ≡ content_of (answer_of lent.now)) }
{
    match lent {
        Content::Alias(target) => Ok(alias_content(own_first(target)?)),
        Content::Found(_, found) => Ok(AnswerContent::Data(own_set(alloc, found)?)),
        _ => Ok(AnswerContent::NoData),
    }
}

/// A CNAME record, if there is one.
fn alias_content(target: Option<SharedRr>) -> AnswerContent
    ensures { result ≡ alias_content target }
{
    match target {
        Some(target) => AnswerContent::Cname(target),
        None => AnswerContent::NoData,
    }
}

/// NS and DS of a referral, the SOA record of a negative answer.
fn own_authority(
    alloc: Global,
    version: &ZoneVersion,
    lent: &Content<'_>,
) -> Result<Option<AnswerAuthority>, AllocError>
    requires { HasItsTypes lent.now }
    ensures { IfOk result (λ a. a ≡ authority_for version.now (answer_of lent.now)) }
{
    match lent {
        Content::Referral(owner, servers, signer) => {
            Ok(Some(delegation(alloc, owner, servers, *signer)?))
        }
        Content::NoData => soa_authority(version),
        Content::NameError => soa_authority(version),
        _ => Ok(None),
    }
}

/// The NS and DS sets of a zone cut at its name.
fn delegation(
    alloc: Global,
    owner: &KeyName,
    servers: &Rrset,
    signer: Option<&Rrset>,
) -> Result<AnswerAuthority, AllocError>
    ensures { IfOk result (λ a. a ≡ authority owner.now None (Some servers.now) (option_copied signer.entry)) }
{
    let servers = own_set(alloc, servers)?;
    match own_option(alloc, signer) {
        Ok(signer) => authority_at(alloc, owner, servers, signer),
        Err(error) => {
            drop(servers);
            Err(error)
        }
    }
}

/// These NS and DS sets at a zone cut's name.
fn authority_at(
    alloc: Global,
    owner: &KeyName,
    servers: SharedRrset,
    signer: Option<SharedRrset>,
) -> Result<AnswerAuthority, AllocError>
    ensures { IfOk result (λ a. a ≡ authority owner.now None (Some servers) signer) }
{
    match owner.to_stored(alloc) {
        Ok(owner) => Ok(AnswerAuthority::new(owner, None, Some(servers), signer)),
        Err(error) => {
            drop(signer);
            drop(servers);
            Err(error)
        }
    }
}

/// The first SOA record of the apex there, if there is one (RFC 2308, 3).
fn soa_authority(version: &ZoneVersion) -> Result<Option<AnswerAuthority>, AllocError>
    ensures { IfOk result (λ a. a ≡ soa_authority version.now) }
{
    match first_apex_soa(version)? {
        Some(soa) => match version.apex().clone() {
            Ok(apex) => Ok(Some(AnswerAuthority::new(apex, Some(soa), None, None))),
            Err(error) => {
                drop(soa);
                Err(error)
            }
        },
        None => Ok(None),
    }
}

/// The first SOA record of the apex, if there is one.
fn first_apex_soa(version: &ZoneVersion) -> Result<Option<SharedRr>, AllocError>
    ensures { IfOk result (λ r. r ≡ first_apex_soa version.now) }
{
    match version.set_at(version.apex(), Rtype::SOA) {
        Some(set) => own_first(set),
        None => Ok(None),
    }
}

/// The glue of a referral, which the answer needs (RFC 1034, 4.2.1).
fn own_additional(
    alloc: Global,
    version: &ZoneVersion,
    lent: &Content<'_>,
) -> Result<Option<AnswerAdditional>, AllocError>
    ensures { IfOk result (λ a. a ≡ additional_for version.now (answer_of lent.now)) }
{
    match lent {
        Content::Referral(_, servers, _) => {
            let mut glue = AnswerRecords::of_servers(version, servers.data());
            let required = own_records(alloc, &mut glue)?;
            Ok(Some(AnswerAdditional::new(alloc, required)))
        }
        _ => Ok(None),
    }
}

/// The first record of a set, if it has one.
fn own_first(set: &Rrset) -> Result<Option<SharedRr>, AllocError>
    ensures { IfOk result (λ r. r ≡ first_record set.now) }
{
    set.first()
}
