// A zone as what may be transferred.
ghost use Rattle.std.specs.Prelude.{◌≡◌, ◌&&◌, ◌==◌, IfOk};
ghost use Rattle.dns_name.specs.Names.{same_name};

use crate::zones::{Zone, ZoneStore};
use dns_name::{ParsedName, ToName};
use dns_numbers::Serial;
use dns_wire::Question;
use std::alloc::{AllocError, Global};
use std::sync::Wait;
use xfr_providers::{StoredZone, XfrData, XfrDataProvider, XfrDataProviderError, current_data};
use xfr_services::Request;
use zone_reads::ReadZone;
use zone_sessions::ZoneApex;

impl StoredZone for Zone<ZoneApex> {
    ghost current = { λ z. z.version };

    fn read_current<R: Wait>(&self, rt: &R) -> Result<ReadZone, AllocError> {
        self.read(rt)
    }
}

impl Zone<ZoneApex> {
    /// Whether a question is for the zone.
    fn is_asked(&self, question: &Question<ParsedName<'_>>) -> bool
        ensures { result ≡ (same_name question.now.qname self.now.version.apex
            && (question.now.qclass == self.now.version.class)) }
    {
        question.qname().name_eq(self.apex_name()) && question.qclass() == self.class()
    }
}

/// A zone gives its current version, without differences, to whoever asks for its apex and class.
impl<M> XfrDataProvider<M> for Zone<ZoneApex> {
    ghost use Rattle.dns_wire.specs.Parse.{sole_question_in};
    ghost use Rattle.xfr_providers.specs.Offers.{zone_answer};

    ghost told = { λ z message metadata asked. zone_answer z.version (sole_question_in message) };

    fn request<R: Wait>(
        &self,
        rt: &R,
        alloc: Global,
        request: &Request<M>,
        _diff_from: Option<Serial>,
    ) -> Result<XfrData, XfrDataProviderError> {
        let question = request.message.sole_question()?;
        if !self.is_asked(&question) {
            return Err(XfrDataProviderError::UnknownZone);
        }
        Ok(current_data(rt, alloc, self)?)
    }
}
