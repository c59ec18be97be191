// Who may have which zone.
ghost use Rattle.std.specs.Prelude.{◌≡◌, ◌++◌, ◌∷◌, [], ℕ, false, IfOk, OnOk, OnErr, Some, map, option_map};
ghost use Rattle.std.specs.Prelude.{◌&&◌, ◌==◌};
ghost use Rattle.std.specs.Arc.{arc_value};
ghost use Rattle.std.specs.List.{list_any};
ghost use Rattle.dns_name.specs.Names.{same_name};
ghost use Rattle.zone_model.specs.Offer.{MayPush, after_push, is_granted, offer_of};
ghost use Rattle.xfr_providers.specs.Offers.{algorithm_number, key_id};

use crate::kept_diffs::KeptDiffs;
use dns_name::{KeyName, ParseError, ParsedName, ToName};
use dns_numbers::Serial;
use dns_wire::Question;
use std::alloc::{AllocError, Global};
use std::marker::Model;
use std::sync::{Arc, Wait};
use thiserror::Error;
use tsig_port::{Algorithm, Key, KeyRef};
use xfr_services::Request;
use zone_diffs::InMemoryZoneDiff;
use zone_reads::ReadZone;

/// What a provider gives for a transfer: one version of a zone, the differences that lead to it, and how its messages are filled. Contracts
/// see an offer.
#[derive(Drop)]
pub struct XfrData {
    zone: ReadZone,
    diffs: Vec<Arc<InMemoryZoneDiff>>,
    compatibility_mode: bool,
}

impl Model for XfrData {
    ghost use Rattle.std.specs.Prelude.{map};
    ghost use Rattle.std.specs.Arc.{arc_value};
    ghost use Rattle.zone_model.specs.Offer.{Offer};

    ghost Value = { Offer };

    ghost view = { λ x. record {
      version = x.zone.version;
      differences = map arc_value x.diffs.items;
      compatibility = x.compatibility_mode;
    } };
}

impl XfrData {
    /// This version, the differences that lead to it, oldest first (RFC 1995, 4), and whether each message is to hold one record (RFC 5936, 7).
    /// The transfer service sends the differences in answer to an incremental request where each has its two SOA records, and else the whole
    /// version; it heeds that mode where the whole zone was asked for.
    pub fn new(
        zone: ReadZone,
        diffs: Vec<Arc<InMemoryZoneDiff>>,
        compatibility_mode: bool,
    ) -> XfrData
        ensures { result ≡ record {
          version = zone.version;
          differences = map arc_value diffs.items;
          compatibility = compatibility_mode;
        } }
    {
        XfrData {
            zone,
            diffs,
            compatibility_mode,
        }
    }

    /// The version that is sent.
    pub fn zone(&self) -> &ReadZone
        ensures { result.now.version ≡ self.now.version }
    {
        &self.zone
    }

    /// The version as a value of its own.
    pub fn into_zone(self) -> ReadZone
        ensures { result.version ≡ self.version }
    {
        let XfrData { zone, diffs, .. } = self;
        drop(diffs);
        zone
    }

    /// The differences, oldest first.
    pub fn diffs(&self) -> &[Arc<InMemoryZoneDiff>]
        ensures { map arc_value result.now ≡ self.now.differences }
    {
        &self.diffs
    }

    /// The differences as values of their own, oldest first.
    pub fn into_diffs(self) -> Vec<Arc<InMemoryZoneDiff>>
        ensures { map arc_value result.items ≡ self.differences }
    {
        let XfrData { zone, diffs, .. } = self;
        drop(zone);
        diffs
    }

    /// All three as values of their own: the version, the differences, oldest first, and whether each message is to hold one record.
    pub fn into_parts(self) -> (ReadZone, Vec<Arc<InMemoryZoneDiff>>, bool)
        ensures zone { result.0.version ≡ self.version }
        ensures diffs { map arc_value result.1.items ≡ self.differences }
        ensures mode { result.2 ≡ self.compatibility }
    {
        let XfrData {
            zone,
            diffs,
            compatibility_mode,
        } = self;
        (zone, diffs, compatibility_mode)
    }

    /// Whether each message is to hold one record.
    pub fn compatibility_mode(&self) -> bool
        ensures { result ≡ self.now.compatibility }
    {
        self.compatibility_mode
    }
}

/// Why a provider gives nothing.
#[derive(Clone, Copy, Debug, PartialEq, Eq, Error)]
pub enum XfrDataProviderError {
    /// The request doesn't ask one readable question.
    #[error("the question can't be read")]
    ParseError,
    /// The zone isn't one of the provider's.
    #[error("unknown zone")]
    UnknownZone,
    /// The requestor may not have the zone.
    #[error("refused")]
    Refused,
    /// The zone can't be had at present.
    #[error("temporarily unavailable")]
    TemporarilyUnavailable,
    /// Memory ran out.
    #[error("out of memory")]
    Memory,
}

impl From<AllocError> for XfrDataProviderError {
    ghost use Rattle.std.specs.Prelude.{◌≡◌};
    ghost use Rattle.xfr_providers.specs.declared.providers.XfrDataProviderError.{XfrDataProviderError};

    ghost from_gives = { λ e s. s ≡ XfrDataProviderError.Memory };

    fn from(_error: AllocError) -> XfrDataProviderError {
        XfrDataProviderError::Memory
    }
}

impl From<ParseError> for XfrDataProviderError {
    ghost use Rattle.std.specs.Prelude.{◌≡◌};
    ghost use Rattle.xfr_providers.specs.declared.providers.XfrDataProviderError.{XfrDataProviderError};

    ghost from_gives = { λ e s. s ≡ XfrDataProviderError.ParseError };

    fn from(_error: ParseError) -> XfrDataProviderError {
        XfrDataProviderError::ParseError
    }
}

/// What knows the zones that may be transferred.
pub trait XfrDataProvider<M> {
    ghost use Rattle.std.specs.Prelude.{ℕ, List, Option, Result};
    ghost use Rattle.zone_model.specs.Offer.{Offer};
    ghost use Rattle.xfr_providers.specs.declared.providers.XfrDataProviderError.{XfrDataProviderError};
    ghost use Rattle.xfr_providers.specs.Offers.{Answers};

    /// What is answered to a message with this metadata and this serial, where memory is ample.
    ghost told: { Self → List ℕ → M → Option ℕ → Result Offer XfrDataProviderError };

    /// What is sent in answer to this request, of which the requestor has the version of this serial, if any. `rt` is for a provider that
    /// reads a zone, as `Zone::read` takes it. Want of memory is told only where there is an offer, never for a refusal.
    fn request<R: Wait>(
        &self,
        rt: &R,
        alloc: Global,
        request: &Request<M>,
        diff_from: Option<Serial>,
    ) -> Result<XfrData, XfrDataProviderError>
        ensures { Answers (told self.now request.now.message request.now.metadata diff_from) result };
}

/// A key that may have the zone.
#[derive(Drop)]
struct Grant {
    name: KeyName,
    algorithm: Algorithm,
}

impl Grant {
    /// Whether the key is the one that may have the zone.
    fn is_for(&self, key: &Key) -> bool
        ensures { result ≡ (same_name self.now.name key.now.name && (algorithm_number self.now.algorithm == algorithm_number key.now.algorithm)) }
    {
        self.name.name_eq(key.name()) && self.algorithm == key.algorithm()
    }
}

/// Whether one of these is for the key.
fn any_is_for(grants: &[Grant], key: &Key) -> bool
    ensures { result ≡ list_any (λ g. same_name g.name key.now.name && (algorithm_number g.algorithm == algorithm_number key.now.algorithm)) grants.now }
{
    grants.iter().any(|grant| grant.is_for(key))
}

/// A provider of one zone, for those who sign with a key that it grants. It keeps a version, and differences that lead to it. Contracts see
/// these, and whom it grants them.
#[derive(Drop)]
pub struct HistoryProvider {
    kept: ReadZone,
    differences: KeptDiffs,
    grants: Vec<Grant>,
    compatibility_mode: bool,
}

impl Model for HistoryProvider {
    ghost use Rattle.zone_model.specs.Offer.{Provider};

    ghost Value = { Provider };

    ghost use Rattle.xfr_providers.specs.Offers.{grant_ids};

    ghost view = { λ p. record {
      kept = p.kept.version;
      differences = p.differences;
      grants = grant_ids p.grants.items;
      compatibility = p.compatibility_mode;
    } };
}

impl HistoryProvider {
    /// The version that is offered, which nobody may have yet.
    pub fn new(alloc: Global, handle: ReadZone) -> HistoryProvider
        ensures { result ≡ record { kept = handle.version; differences = []; grants = []; compatibility = false } }
    {
        HistoryProvider {
            kept: handle,
            differences: KeptDiffs::new(alloc),
            grants: Vec::new(alloc),
            compatibility_mode: false,
        }
    }

    /// Keeps a version in place of the one that is kept. It asks that the difference, where there is one, is that of the two, with their
    /// serials, of which the new one is neither the old one nor before it: what `WriteZone::commit` tells, where the version that it leads
    /// from is the one that is kept. Without a difference all kept ones go. Where it leads to a serial that a kept one starts at, that one and
    /// all older ones go (RFC 1982, 3.1: serials come again). Without memory the provider stays as it was.
    pub fn push(
        &mut self,
        handle: ReadZone,
        diff: Option<InMemoryZoneDiff>,
    ) -> Result<(), AllocError>
        requires { MayPush self.old.kept handle.version diff }
        ensures ok { OnOk result (self.new ≡ after_push self.old handle.version diff) }
        ensures err { OnErr result (self.new ≡ self.old) }
    {
        match self.differences.update(diff) {
            Ok(()) => {
                self.kept = handle;
                Ok(())
            }
            Err(error) => {
                drop(handle);
                Err(error)
            }
        }
    }

    /// Lets those who sign with a key of this name and algorithm have the zone (RFC 5936, 5).
    pub fn grant(&mut self, name: KeyName, algorithm: Algorithm) -> Result<(), AllocError>
        ensures ok { OnOk result (self.new ≡ record self.old { grants = self.old.grants ++ (name, algorithm_number algorithm) ∷ [] }) }
        ensures err { OnErr result (self.new ≡ self.old) }
    {
        self.grants.push(Grant { name, algorithm })?;
        Ok(())
    }

    /// Whether each message is to hold one record (RFC 5936, 7). The transfer service heeds it where the whole zone was asked for.
    pub fn set_compatibility(&mut self, compatibility_mode: bool)
        ensures { self.new ≡ record self.old { compatibility = compatibility_mode } }
    {
        self.compatibility_mode = compatibility_mode;
    }

    /// What it offers to one who has a serial.
    fn offer(&self, alloc: Global, asked: Serial) -> Result<XfrData, AllocError>
        ensures { IfOk result (λ x. x
            ≡ offer_of self.now.kept self.now.differences self.now.compatibility asked) }
    {
        let diffs = self.differences.from_serial(alloc, asked)?;
        let kept = self.kept.clone()?;
        Ok(XfrData::new(kept, diffs, self.compatibility_mode))
    }

    /// Whether a question is for the zone.
    fn is_asked(&self, question: &Question<ParsedName<'_>>) -> bool
        ensures { result ≡ (same_name question.now.qname self.now.kept.apex && (question.now.qclass == self.now.kept.class)) }
    {
        question.qname().name_eq(self.kept.apex_name()) && question.qclass() == self.kept.class()
    }

    /// Whether a key may have the zone.
    #[tactic(auto, using(crate::proofs::Granted::any_map))]
    fn is_granted(&self, key: &Key) -> bool
        ensures { result ≡ is_granted self.now.grants (Some (key_id key.now)) }
    {
        any_is_for(&self.grants, key)
    }

    /// Whether one who signed with this key, or with none, may have the zone.
    fn is_granted_to<K: KeyRef>(&self, key: &Option<K>) -> bool
        ensures { result ≡ is_granted self.now.grants (option_map (λ k. key_id (K.the_key k)) key.now) }
    {
        match key {
            Some(key) => self.is_granted(key.key_ref()),
            None => false,
        }
    }
}

impl<K: KeyRef> XfrDataProvider<Option<K>> for HistoryProvider {
    ghost use Rattle.std.specs.Prelude.{option_map};
    ghost use Rattle.dns_wire.specs.Parse.{sole_question_in};
    ghost use Rattle.xfr_providers.specs.Offers.{answer_to, key_id};

    ghost told = { λ p message key asked. answer_to p (sole_question_in message) (option_map (λ k. key_id (K.the_key k)) key) asked };

    fn request<R: Wait>(
        &self,
        _rt: &R,
        alloc: Global,
        request: &Request<Option<K>>,
        diff_from: Option<Serial>,
    ) -> Result<XfrData, XfrDataProviderError> {
        let question = request.message.sole_question()?;
        if !self.is_asked(&question) {
            return Err(XfrDataProviderError::UnknownZone);
        }
        if !self.is_granted_to(&request.metadata) {
            return Err(XfrDataProviderError::Refused);
        }
        Ok(self.offer(alloc, diff_from.unwrap_or(Serial::from(0)))?)
    }
}
