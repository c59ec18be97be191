// Versions whose records have wire forms.
ghost use Rattle.std.specs.Prelude.{◌≡◌, ℕ, List, IsTrue};
ghost use Rattle.std.specs.List.{AllByRecursion};
ghost use Rattle.dns_rdata.specs.Records.{is_data};
ghost use Rattle.dns_rdata.specs.ZoneData.{rtype_of, data_fields};
ghost use Rattle.zone_model.specs.Version.{Version};
ghost use Rattle.zone_model.specs.Walk.{walk};
ghost use Rattle.zone_model.specs.TransferText.{Mode};
ghost use Rattle.zone_model.specs.Offer.{Offer, IsHistory, text_of};
ghost use Rattle.xfr_client.specs.SoFar.{authority_of};
ghost use Rattle.zone_sync.specs.Fitting.{told_offer};
ghost use Rattle.zone_sync.specs.Forms.{HaveForms, IsWritable, IsWritableStop};

use dns_name::Labelled;
use dns_rdata::{RecordData, StoredRecordData};
use zone_reads::{ReadZone, WalkItem};

/// Of versions whose records have wire forms so have the records of each text that is sent of them, and of
/// each request that is made with one.
pub fn texts_have_forms()
    ensures sent { (offer : Offer) (mode : Mode) (asked : ℕ) (history : List Version)
        → IsHistory (told_offer mode offer) history → AllByRecursion IsWritable history
        → HaveForms (text_of offer mode asked) }
    ensures asked { (mode : Mode) (base : Version) → IsWritable base → HaveForms (authority_of mode base) }
{}

/// The records of a stored version have wire forms, and data of their types: what the premises of a transfer's
/// success (`Fits`) ask of records. This walks the version once, and does nothing else.
pub fn records_have_forms(zone: &ReadZone)
    ensures { IsWritable zone.now.version }
{
    // For the proof: the apex is a name, and the class has 16 bits.
    let _len = zone.apex_name().compose_len();
    let _class = zone.class();
    walk_has_forms(zone);
}

/// The same of each stop of the walk.
fn walk_has_forms(zone: &ReadZone)
    ensures { AllByRecursion IsWritableStop (walk zone.now.version) }
{
    let mut stops = zone.iter_rrsets();
    'stops: while let Some(stop) = stops.next() {
        stop_has_forms(&stop);
    }
}

/// The same of one stop.
fn stop_has_forms(stop: &WalkItem<'_>)
    ensures { IsWritableStop stop.now }
{
    let _len = stop.owner().compose_len();
    let _rtype = stop.rtype();
    let _ttl = stop.ttl();
    data_have_pieces(stop.items());
}

/// Stored data have the pieces of their types, and fit RDLENGTH.
fn data_have_pieces(data: &[StoredRecordData])
    ensures { AllByRecursion (λ d. IsTrue (is_data (rtype_of d) (data_fields d))) data.now }
{
    let mut rest = data;
    'data: while let Some((item, more)) = rest.split_first() {
        let _len = item.rdlen();
        rest = more;
    }
}
