// An answer of a version, lent.
ghost use Rattle.std.specs.Prelude.{◌≡◌, option_copied};
ghost use Rattle.zone_model.specs.Answer.{answer_section, authority_section, glue_section, is_authoritative, rcode_of};
ghost use Rattle.zone_lookup.specs.Answers.{answer_of, answered_by, cut_of, HasItsTypes, servers_of, set_found, signer_of, type_found};

use crate::content::{Content, LentAnswer};
use dns_name::{KeyName, Labelled};
use dns_numbers::{Rcode, Rtype};
use std::marker::Model;
use zone_reads::{AnswerRecords, SetRecords, apex_soa};
use zone_values::Rrset;
use zone_versions::ZoneVersion;

/// What a version has for a question, its sets and their records lent (RFC 1034, 4.3.2).
#[derive(Drop)]
pub struct AnswerRef<'v> {
    version: &'v ZoneVersion,
    content: Content<'v>,
}

impl<'v> Model for AnswerRef<'v> {
    ghost use Rattle.zone_lookup.specs.Answers.{AnsweredBy, answer_of, answered_by, HasItsTypes};

    ghost Value = { AnsweredBy };

    ghost view = { λ a. answered_by a.version.now (answer_of a.content) };

    ghost invariant = { λ a. HasItsTypes a.content };
}

impl<'v> AnswerRef<'v> {
    /// The answer of a version.
    pub(crate) fn of(version: &'v ZoneVersion, lent: LentAnswer<'v>) -> AnswerRef<'v>
        ensures { result ≡ answered_by version.now lent.entry }
    {
        AnswerRef {
            version,
            content: lent.into_content(),
        }
    }

    /// The version that was asked.
    pub(crate) fn version(&self) -> &'v ZoneVersion
        ensures { result.now ≡ self.now.version }
    {
        self.version
    }

    /// The sets of the answer.
    pub(crate) fn content(&self) -> &Content<'v>
        ensures answer { answer_of result.now ≡ self.now.answer }
        ensures types { HasItsTypes result.now }
    {
        &self.content
    }

    /// NXDOMAIN where the name doesn't exist, else NOERROR (RFC 1035, 4.1.1).
    pub fn rcode(&self) -> Rcode
        ensures { result ≡ rcode_of self.now.answer }
    {
        match &self.content {
            Content::Referral(_, _, _) => Rcode::NOERROR,
            Content::Alias(_) => Rcode::NOERROR,
            Content::Found(_, _) => Rcode::NOERROR,
            Content::NoData => Rcode::NOERROR,
            Content::NameError => Rcode::NXDOMAIN,
        }
    }

    /// Whether the zone answers with authority: all but a referral do (RFC 1034, 4.3.2).
    pub fn authoritative(&self) -> bool
        ensures { result ≡ is_authoritative self.now.answer }
    {
        match &self.content {
            Content::Referral(_, _, _) => false,
            Content::Alias(_) => true,
            Content::Found(_, _) => true,
            Content::NoData => true,
            Content::NameError => true,
        }
    }

    /// The set that answers: the one asked for, or the name's CNAME set.
    pub fn found(&self) -> Option<&'v Rrset>
        ensures { option_copied result ≡ set_found self.now.answer }
    {
        match &self.content {
            Content::Alias(target) => Some(*target),
            Content::Found(_, found) => Some(*found),
            _ => None,
        }
    }

    /// Its type.
    pub fn found_type(&self) -> Option<Rtype>
        ensures { result ≡ type_found self.now.answer }
    {
        match &self.content {
            Content::Alias(_) => Some(Rtype::CNAME),
            Content::Found(rtype, _) => Some(*rtype),
            _ => None,
        }
    }

    /// The NS set of a referral's zone cut.
    pub fn servers(&self) -> Option<&'v Rrset>
        ensures { option_copied result ≡ servers_of self.now.answer }
    {
        match &self.content {
            Content::Referral(_, servers, _) => Some(*servers),
            _ => None,
        }
    }

    /// The DS set of a referral's zone cut, where it has one.
    pub fn signer(&self) -> Option<&'v Rrset>
        ensures { option_copied result ≡ signer_of self.now.answer }
    {
        match &self.content {
            Content::Referral(_, _, signer) => *signer,
            _ => None,
        }
    }

    /// The name of a referral's zone cut, in lower case.
    pub fn cut(&self) -> Option<KeyName>
        ensures { result ≡ cut_of self.now.answer }
    {
        match &self.content {
            Content::Referral(owner, _, _) => Some(owner.duplicate()),
            _ => None,
        }
    }

    /// The answer section: the records found, at the name that was asked for, as it was given (RFC 4592, 3.3.1).
    pub fn answer<N: Labelled>(&self, qname: &N) -> AnswerRecords<'v>
        ensures { result ≡ answer_section self.now.version (N.labels qname.now) self.now.answer }
    {
        let version = self.version;
        match &self.content {
            Content::Alias(target) => AnswerRecords::of_set(
                version,
                SetRecords::of(
                    qname.to_key_name(),
                    Rtype::CNAME,
                    version.class(),
                    Some(*target),
                ),
            ),
            Content::Found(rtype, found) => AnswerRecords::of_set(
                version,
                SetRecords::of(qname.to_key_name(), *rtype, version.class(), Some(*found)),
            ),
            _ => AnswerRecords::none(version),
        }
    }

    /// The authority section: NS then DS of a referral's zone cut, the first apex SOA record of a negative answer (RFC 1034, 4.3.2;
    /// RFC 4035, 3.1.4.1; RFC 2308, 3).
    pub fn authority(&self) -> AnswerRecords<'v>
        ensures { result ≡ authority_section self.now.version self.now.answer }
    {
        let version = self.version;
        match &self.content {
            Content::Referral(owner, servers, signer) => {
                let servers = SetRecords::of(
                    owner.duplicate(),
                    Rtype::NS,
                    version.class(),
                    Some(*servers),
                );
                let signer = SetRecords::of(owner.duplicate(), Rtype::DS, version.class(), *signer);
                AnswerRecords::of_sets(version, servers, signer)
            }
            Content::NoData => AnswerRecords::of_set(version, apex_soa(version)),
            Content::NameError => AnswerRecords::of_set(version, apex_soa(version)),
            _ => AnswerRecords::none(version),
        }
    }

    /// The additional section: for each name server of a referral, in order, its A then AAAA records, where its name is in the zone; the
    /// owner is the name as the version keeps it (RFC 1034, 4.2.1).
    pub fn glue(&self) -> AnswerRecords<'v>
        ensures { result ≡ glue_section self.now.version self.now.answer }
    {
        match &self.content {
            Content::Referral(_, servers, _) => {
                AnswerRecords::of_servers(self.version, servers.data())
            }
            _ => AnswerRecords::none(self.version),
        }
    }
}
