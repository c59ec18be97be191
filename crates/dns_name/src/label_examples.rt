// Worked examples, proved by computation.
ghost use Rattle.std.specs.Prelude.{◌≡◌, ◌∷◌, ◌++◌, [], codes, flat_map, true, false};
ghost use Rattle.std.specs.declared.cmp.Ordering.TheVariants.{Less, Greater};
ghost use Rattle.dns_name.specs.Octets.{u48_octets};
ghost use Rattle.dns_name.specs.LabelOrder.{same_label, label_cmp};
ghost use Rattle.dns_name.specs.LabelText.{octet_text};

/// Labels compared without case, as strings of octets, and as text.
pub fn labels()
    ensures equal { same_label (codes "NS1") (codes "ns1") ≡ true }
    ensures not_equal { same_label (codes "ns1") (codes "ns2") ≡ false }
    ensures not_letters { same_label (codes "[") (codes "{") ≡ false }
    ensures order { label_cmp (codes "Zone") (codes "a") ≡ Greater }
    ensures shorter { label_cmp (codes "B") (codes "aa") ≡ Greater }
    ensures prefix { label_cmp (codes "ns") (codes "NS1") ≡ Less }
    ensures escaped { flat_map octet_text (codes "a.b" ++ 7 ∷ []) ≡ codes "a\\.b\\007" }
{}

/// A time of six octets (RFC 8945, 4.2).
pub fn wire_forms()
    ensures time { u48_octets 1000 ≡ 0x00 ∷ 0x00 ∷ 0x00 ∷ 0x00 ∷ 0x03 ∷ 0xe8 ∷ [] }
{}
