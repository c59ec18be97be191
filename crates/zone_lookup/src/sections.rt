// The records of an answer, pushed section by section.
ghost use Rattle.std.specs.Prelude.{◌≡◌, List, [], ◌∷◌, ◌++◌, option_copied};
ghost use Rattle.std.specs.Option.{option_map_or};
ghost use Rattle.dns_rdata.specs.Records.{Record as RecordOf};
ghost use Rattle.dns_wire.specs.Wire.{in_answer, in_authority, Header as HeaderOf, Question as QuestionOf, Message as MessageOf};
ghost use Rattle.zone_lookup.specs.Sending.{record_at, set_at_name, content_records, authority_records, Stands, Reaches};

use crate::answer_content::AnswerContent;
use crate::parts::AnswerAuthority;
use dns_name::NameRef;
use dns_numbers::Class;
use dns_rdata::{Record, StoredRecord};
use dns_wire::{AdditionalBuilder, AnswerBuilder, AuthorityBuilder, PushError};
use zone_values::{Rrset, SharedRr, SharedRrset};

/// Adds the content to the answer section, at that owner.
pub(crate) fn push_content(
    section: &mut AnswerBuilder,
    owner: &NameRef<'_>,
    class: Class,
    content: &AnswerContent,
) -> Result<(), PushError>
    ensures { (h : HeaderOf) (qs : List QuestionOf) → Stands (in_answer h qs []) section.old
        → Reaches (in_answer h qs (content_records owner.now class content.now)) section.old result section.new }
{
    match content {
        AnswerContent::Data(set) => push_answers(section, owner, class, set.as_rrset()),
        AnswerContent::Cname(cname) => section.push(&Record::new(
            owner.borrowed(),
            class,
            cname.ttl(),
            cname.data(),
        )),
        AnswerContent::NoData => Ok(()),
    }
}

/// Adds the records of a set to the answer section, at that owner.
fn push_answers(
    section: &mut AnswerBuilder,
    owner: &NameRef<'_>,
    class: Class,
    set: &Rrset,
) -> Result<(), PushError>
    ensures { (h : HeaderOf) (qs : List QuestionOf) → Stands (in_answer h qs []) section.old
        → Reaches (in_answer h qs (set_at_name owner.now class set.now)) section.old result section.new }
{
    let ttl = set.ttl();
    let mut rest = set.data();
    'records: while let Some((rdata, behind)) = rest.split_first() {
        section.push(&Record::new(owner.borrowed(), class, ttl, rdata))?;
        rest = behind;
    }
    Ok(())
}

/// Adds the records of a set to the authority section, at that owner.
fn push_referred(
    section: &mut AuthorityBuilder,
    owner: &NameRef<'_>,
    class: Class,
    set: &Rrset,
) -> Result<(), PushError>
    ensures { (h : HeaderOf) (qs : List QuestionOf) (answers before : List RecordOf) → Stands (in_authority h qs answers before) section.old
        → Reaches (in_authority h qs answers (before ++ set_at_name owner.now class set.now)) section.old result section.new }
{
    let ttl = set.ttl();
    let mut rest = set.data();
    'records: while let Some((rdata, behind)) = rest.split_first() {
        section.push(&Record::new(owner.borrowed(), class, ttl, rdata))?;
        rest = behind;
    }
    Ok(())
}

/// Adds records to the additional section, in order.
pub(crate) fn push_records(
    section: &mut AdditionalBuilder,
    records: &[StoredRecord],
) -> Result<(), PushError>
    ensures { (m : MessageOf) → Stands m section.old → Reaches (record m { additional = m.additional ++ records.now }) section.old result section.new }
{
    let mut rest = records;
    'records: while let Some((item, behind)) = rest.split_first() {
        section.push(item)?;
        rest = behind;
    }
    Ok(())
}

impl AnswerAuthority {
    /// Adds the SOA record to the authority section, then the NS set, then the DS set (RFC 1035, 4.1).
    pub(crate) fn push_into(
        &self,
        section: &mut AuthorityBuilder,
        class: Class,
    ) -> Result<(), PushError>
        ensures { (h : HeaderOf) (qs : List QuestionOf) (answers : List RecordOf) → Stands (in_authority h qs answers []) section.old
            → Reaches (in_authority h qs answers (authority_records class self.now)) section.old result section.new }
    {
        let owner = self.owner().borrowed();
        push_soa(section, &owner, class, self.soa())?;
        push_set(section, &owner, class, self.ns())?;
        push_set(section, &owner, class, self.ds())
    }
}

/// Adds an SOA record to the authority section, at that owner, if there is one.
fn push_soa(
    section: &mut AuthorityBuilder,
    owner: &NameRef<'_>,
    class: Class,
    soa: Option<&SharedRr>,
) -> Result<(), PushError>
    ensures { (h : HeaderOf) (qs : List QuestionOf) (answers before : List RecordOf) → Stands (in_authority h qs answers before) section.old
        → Reaches (in_authority h qs answers (before ++ option_map_or (λ r. record_at owner.now class r ∷ []) (option_copied soa.entry) []))
        section.old result section.new }
{
    match soa {
        Some(soa) => { section.push(&Record::new(owner.borrowed(), class, soa.ttl(), soa.data())) }
        None => Ok(()),
    }
}

/// Adds the records of a set to the authority section, at that owner, if there is one.
fn push_set(
    section: &mut AuthorityBuilder,
    owner: &NameRef<'_>,
    class: Class,
    set: Option<&SharedRrset>,
) -> Result<(), PushError>
    ensures { (h : HeaderOf) (qs : List QuestionOf) (answers before : List RecordOf) → Stands (in_authority h qs answers before) section.old
        → Reaches (in_authority h qs answers (before ++ option_map_or (set_at_name owner.now class) (option_copied set.entry) []))
        section.old result section.new }
{
    match set {
        Some(set) => push_referred(section, owner, class, set.as_rrset()),
        None => Ok(()),
    }
}
