// Records of the sections of an answer, lent.
ghost use Rattle.std.specs.Prelude.{◌≡◌, IfSome, option_copied, option_map};
ghost use Rattle.std.specs.Iterator.{YieldsFirst};
ghost use Rattle.zone_model.specs.Answer.{records_of_option, first_only};
ghost use Rattle.zone_values.specs.TypedEntries.{untyped};

use dns_name::KeyName;
use dns_numbers::{Class, Rtype, Ttl};
use dns_rdata::{Record, StoredRecordData};
use std::marker::Model;
use zone_values::Rrset;

/// One record of an answer: its owner, and its data lent by the version that was asked, for as long as that stands.
pub type AnswerRecord<'v> = Record<KeyName, &'v StoredRecordData>;

/// The records that are left of one set, in order.
#[derive(Drop)]
pub struct SetRecords<'v> {
    owner: KeyName,
    rtype: Rtype,
    class: Class,
    ttl: Ttl,
    items: &'v [StoredRecordData],
}

impl<'v> Model for SetRecords<'v> {
    ghost use Rattle.std.specs.Prelude.{◌≡◌, List, map, All};
    ghost use Rattle.dns_rdata.specs.Records.{Record};
    ghost use Rattle.dns_rdata.specs.ZoneData.{rtype_of, data_fields};
    ghost use Rattle.zone_model.specs.Answer.{records_of};

    ghost Value = { List Record };

    ghost view = { λ s. records_of s.owner s.rtype s.class (record { ttl = s.ttl; items = map data_fields s.items.now }) };

    ghost invariant = { λ s. All (λ d. rtype_of d ≡ s.rtype) s.items.now };
}

impl<'v> SetRecords<'v> {
    /// The records of a set of this type, and none where there is no set.
    pub fn of(
        owner: KeyName,
        rtype: Rtype,
        class: Class,
        contents: Option<&'v Rrset>,
    ) -> SetRecords<'v>
        requires { IfSome contents (λ s. s.now.rtype ≡ rtype) }
        ensures { result ≡ records_of_option owner rtype class (untyped (option_copied contents.entry)) }
    {
        match contents {
            Some(contents) => SetRecords {
                owner,
                rtype,
                class,
                ttl: contents.ttl(),
                items: contents.data(),
            },
            None => SetRecords {
                owner,
                rtype,
                class,
                ttl: Ttl::from_int(0),
                items: &[],
            },
        }
    }

    /// The first record of a set of this type, and none where there is no set.
    pub fn first_of(
        owner: KeyName,
        rtype: Rtype,
        class: Class,
        contents: Option<&'v Rrset>,
    ) -> SetRecords<'v>
        requires { IfSome contents (λ s. s.now.rtype ≡ rtype) }
        ensures { result ≡ records_of_option owner rtype class (option_map first_only (untyped (option_copied contents.entry))) }
    {
        let mut left = SetRecords::of(owner, rtype, class, contents);
        if left.items.len() > 1 {
            left.items = left.items.split_at(1).0;
        }
        left
    }

    /// The next record.
    pub fn next_record(&mut self) -> Option<AnswerRecord<'v>>
        ensures { YieldsFirst (λ s. s) self.old result self.new }
    {
        let items = self.items;
        match items.split_first() {
            Some((rdata, behind)) => {
                self.items = behind;
                let owner = self.owner.duplicate();
                Some(Record::new(owner, self.class, self.ttl, rdata))
            }
            None => None,
        }
    }
}
