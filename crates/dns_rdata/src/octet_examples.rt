// Worked examples, proved by computation.
ghost use Rattle.std.specs.Prelude.{◌≡◌, ◌∷◌, [], ◌++◌, codes, length, replicate, true, false};
ghost use Rattle.dns_name.specs.Records.{are_strings, data_wire, strings_in, text_strings};
ghost use Rattle.dns_rdata.specs.OctetFields.{a_fields, aaaa_fields, txt_fields, ds_fields, unknown_fields};

/// Data of each type as they are sent: the documentation addresses of RFC 5737 and RFC 3849, two strings, the DS record of RFC 4034, 5.4,
/// and the data of type 731 in RFC 3597, 5.
#[tactic(auto, unfolding(crate::specs::OctetFields::ds_head))]
pub fn data_as_sent()
    ensures a { data_wire (a_fields (record { octets = 192 ∷ 0 ∷ 2 ∷ 1 ∷ [] })) ≡ 0xc0 ∷ 0x00 ∷ 0x02 ∷ 0x01 ∷ [] }
    ensures aaaa { data_wire (aaaa_fields (record { octets = 0x20 ∷ 0x01 ∷ 0x0d ∷ 0xb8 ∷ replicate 11 0 ++ 1 ∷ [] })) ≡ 0x20 ∷ 0x01 ∷ 0x0d ∷ 0xb8 ∷ 0x00 ∷ 0x00 ∷ 0x00 ∷ 0x00 ∷ 0x00 ∷ 0x00 ∷ 0x00 ∷ 0x00 ∷ 0x00 ∷ 0x00 ∷ 0x00 ∷ 0x01 ∷ [] }
    ensures txt { data_wire (txt_fields (2 ∷ codes "hi" ++ 3 ∷ codes "all")) ≡ 0x02 ∷ 0x68 ∷ 0x69 ∷ 0x03 ∷ 0x61 ∷ 0x6c ∷ 0x6c ∷ [] }
    ensures ds { data_wire (ds_fields (record { key_tag = 60485; algorithm = 5; digest_type = 1; digest = 0x2b ∷ 0xb1 ∷ 0x83 ∷ 0xaf ∷ 0x5f ∷ 0x22 ∷ 0x58 ∷ 0x81 ∷ 0x79 ∷ 0xa5 ∷ 0x3b ∷ 0x0a ∷ 0x98 ∷ 0x63 ∷ 0x1f ∷ 0xad ∷ 0x1a ∷ 0x29 ∷ 0x21 ∷ 0x18 ∷ [] })) ≡ 0xec ∷ 0x45 ∷ 0x05 ∷ 0x01 ∷ 0x2b ∷ 0xb1 ∷ 0x83 ∷ 0xaf ∷ 0x5f ∷ 0x22 ∷ 0x58 ∷ 0x81 ∷ 0x79 ∷ 0xa5 ∷ 0x3b ∷ 0x0a ∷ 0x98 ∷ 0x63 ∷ 0x1f ∷ 0xad ∷ 0x1a ∷ 0x29 ∷ 0x21 ∷ 0x18 ∷ [] }
    ensures unknown { data_wire (unknown_fields (record { rtype = 731; octets = 0xab ∷ 0xcd ∷ 0xef ∷ 0x01 ∷ 0x23 ∷ 0x45 ∷ [] })) ≡ 0xab ∷ 0xcd ∷ 0xef ∷ 0x01 ∷ 0x23 ∷ 0x45 ∷ [] }
{}

/// The character strings that octets have.
pub fn strings_read()
    ensures none { strings_in [] ≡ [] }
    ensures two { strings_in (2 ∷ codes "hi" ++ 3 ∷ codes "all") ≡ codes "hi" ∷ codes "all" ∷ [] }
    ensures empty { strings_in (0 ∷ 1 ∷ 7 ∷ 0 ∷ []) ≡ [] ∷ (7 ∷ []) ∷ [] ∷ [] }
    ensures cut { strings_in (3 ∷ 7 ∷ 8 ∷ []) ≡ (7 ∷ 8 ∷ []) ∷ [] }
    ensures cut_is_not_whole { are_strings (3 ∷ 7 ∷ 8 ∷ []) ≡ false }
    ensures long { strings_in (text_strings (replicate 256 7)) ≡ replicate 255 7 ∷ (7 ∷ []) ∷ [] }
    ensures no_text { strings_in (text_strings []) ≡ [] ∷ [] }
{}

/// The longest text that fits RDLENGTH, and one that is longer by an octet.
pub fn longest_text()
    ensures fits { length (text_strings (replicate 65279 7)) ≡ 65535 }
    ensures long { length (text_strings (replicate 65280 7)) ≡ 65536 }
{}
