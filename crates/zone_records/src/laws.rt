// What is held of a zone file.
ghost use Rattle.std.specs.Prelude.{◌≡◌};
ghost use Rattle.dns_name.specs.Records.{Record};
ghost use Rattle.zone_model.specs.Classify.{ZoneFile, classify, opened};
ghost use Rattle.zone_records.specs.Parsed.{kept, version_of};
ghost use Rattle.zone_records.specs.Taking.{take, taken_as};
ghost use Rattle.zone_records.specs.Faults.{is_whole, makes_zone};

/// What is held of a zone file takes and refuses records as the file does, makes a zone exactly where the file's records do, and then opens it with the
/// file's version.
pub fn zone_files_open()
    ensures takes { (f : ZoneFile) (r : Record) → take (kept f) r ≡ taken_as f r (classify f r) }
    ensures whole { (f : ZoneFile) → is_whole (kept f) ≡ makes_zone f }
    ensures opens { (f : ZoneFile) → version_of (kept f) ≡ opened f }
{}
