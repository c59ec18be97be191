// The zones of a server, each of which may be transferred.
ghost use Rattle.std.specs.Prelude.{◌≡◌, IfOk};
ghost use Rattle.xfr_providers.specs.Offers.{offer_alone};

use crate::providers::{XfrData, XfrDataProvider, XfrDataProviderError};
use dns_numbers::Serial;
use std::alloc::{AllocError, Global};
use std::sync::Wait;
use xfr_services::Request;
use zone_reads::ReadZone;
use zone_tree::{AtApex, ZoneTree};

/// A zone that is stored, whatever keeps it: its current version can be read.
pub trait StoredZone {
    ghost use Rattle.std.specs.Prelude.{◌≡◌, IfOk};
    ghost use Rattle.zone_model.specs.Version.{Version};

    /// The current version.
    ghost current: { Self → Version };

    /// A read handle of the current version.
    fn read_current<R: Wait>(&self, rt: &R) -> Result<ReadZone, AllocError>
        ensures { IfOk result (λ z. z.version ≡ current self.now) };
}

/// The current version of a zone, without differences.
pub fn current_data<R: Wait, Z: StoredZone>(
    rt: &R,
    alloc: Global,
    zone: &Z,
) -> Result<XfrData, AllocError>
    ensures { IfOk result (λ x. x ≡ offer_alone (Z.current zone.now)) }
{
    let version = zone.read_current(rt)?;
    Ok(XfrData::new(version, Vec::new(alloc), false))
}

/// The zones of a server, for whoever asks: the zone that the name lies in gives its current version, without differences. The transfer
/// service sends that only to one who asks for its apex.
impl<M, Z: AtApex + StoredZone> XfrDataProvider<M> for ZoneTree<Z> {
    ghost use Rattle.dns_wire.specs.Parse.{sole_question_in};
    ghost use Rattle.xfr_providers.specs.Offers.{zones_answer};

    ghost told = { λ zones message metadata asked. zones_answer Z.current zones (sole_question_in message) };

    fn request<R: Wait>(
        &self,
        rt: &R,
        alloc: Global,
        request: &Request<M>,
        _diff_from: Option<Serial>,
    ) -> Result<XfrData, XfrDataProviderError> {
        let question = request.message.sole_question()?;
        match self.find_zone(question.qname(), question.qclass()) {
            Some(zone) => Ok(current_data(rt, alloc, zone)?),
            None => Err(XfrDataProviderError::UnknownZone),
        }
    }
}
