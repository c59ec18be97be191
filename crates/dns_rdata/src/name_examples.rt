// Worked examples, proved by computation.
ghost use Rattle.std.specs.Prelude.{◌≡◌, ◌∷◌, [], codes};
ghost use Rattle.dns_name.specs.Names.{Name};
ghost use Rattle.dns_name.specs.Records.{data_wire};
ghost use Rattle.dns_rdata.specs.DataFields.{name_fields, minfo_fields, mx_fields, srv_fields, soa_fields};

/// Data of each type as they are sent: the number of an MX record, the three of an SRV record and the five of an SOA record have octets
/// that differ from one another.
#[tactic(auto, unfolding(crate::specs::DataFields::srv_numbers, crate::specs::DataFields::soa_times))]
pub fn data_as_sent()
    ensures name { data_wire (name_fields (λ n. n) (codes "ns" ∷ codes "b" ∷ [])) ≡ 0x02 ∷ 0x6e ∷ 0x73 ∷ 0x01 ∷ 0x62 ∷ 0x00 ∷ [] }
    ensures minfo { data_wire (minfo_fields {N = Name} (λ n. n) (record { rmailbx = codes "r" ∷ []; emailbx = codes "er" ∷ [] })) ≡ 0x01 ∷ 0x72 ∷ 0x00 ∷ 0x02 ∷ 0x65 ∷ 0x72 ∷ 0x00 ∷ [] }
    ensures mx { data_wire (mx_fields {N = Name} (λ n. n) (record { preference = 0x0102; exchange = codes "mx" ∷ [] })) ≡ 0x01 ∷ 0x02 ∷ 0x02 ∷ 0x6d ∷ 0x78 ∷ 0x00 ∷ [] }
    ensures srv { data_wire (srv_fields {N = Name} (λ n. n) (record { priority = 0x0102; weight = 0x0304; port = 0x0506; target = codes "s" ∷ [] })) ≡ 0x01 ∷ 0x02 ∷ 0x03 ∷ 0x04 ∷ 0x05 ∷ 0x06 ∷ 0x01 ∷ 0x73 ∷ 0x00 ∷ [] }
    ensures soa { data_wire (soa_fields {N = Name} (λ n. n) (record { mname = codes "m" ∷ []; rname = codes "rn" ∷ []; serial = 0x01020304; refresh = 0x05060708; retry = 0x090a0b0c; expire = 0x0d0e0f10; minimum = 0x11121314 })) ≡ 0x01 ∷ 0x6d ∷ 0x00 ∷ 0x02 ∷ 0x72 ∷ 0x6e ∷ 0x00 ∷ 0x01 ∷ 0x02 ∷ 0x03 ∷ 0x04 ∷ 0x05 ∷ 0x06 ∷ 0x07 ∷ 0x08 ∷ 0x09 ∷ 0x0a ∷ 0x0b ∷ 0x0c ∷ 0x0d ∷ 0x0e ∷ 0x0f ∷ 0x10 ∷ 0x11 ∷ 0x12 ∷ 0x13 ∷ 0x14 ∷ [] }
{}
