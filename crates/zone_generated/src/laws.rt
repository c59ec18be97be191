// Laws of zones that are made from numbers, each the contract of a function with an empty body.
ghost use Rattle.std.specs.Prelude.{ℕ, ◌+◌, ◌<◌, ◌≤◌, ◌^◌, length};
ghost use Rattle.std.specs.List.{AllByRecursion};
ghost use Rattle.zone_model.specs.Offer.{whole_text};
ghost use Rattle.zone_model.specs.TransferLaws.{IsPublished};
ghost use Rattle.zone_generated.specs.Generated as generated;
ghost use Rattle.zone_generated.specs.Generated.{zone_name};
ghost use Rattle.zone_generated.specs.ShortTexts.{IsShort};

/// Each such zone may be published: it has one SOA record, at the apex `example.`.
pub fn generated_zones_are_published()
    ensures { (size seed : ℕ) → 0 < size → size < 2 ^ 32
        → IsPublished zone_name (generated.generated size seed) }
{}

/// The text of each has few records, each of few octets.
pub fn generated_texts_are_short()
    ensures each { (size seed : ℕ) → 0 < size → size < 2 ^ 32
        → AllByRecursion IsShort (whole_text (generated.generated size seed)) }
    ensures few { (size seed : ℕ) → 0 < size → size < 2 ^ 32
        → length (whole_text (generated.generated size seed)) ≤ size + 4 }
{}
