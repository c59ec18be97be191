// What a client of a transfer keeps beside its session, and how its replies are taken.
ghost use Rattle.std.specs.Prelude.{◌≡◌, ◌≢◌, ◌<◌, ◌⊎◌, [], ◌∷◌, ◌++◌, ℕ, Bool, true, false, List, IsSome, IfOk, IfErr, OnOk, OnErr, is_some, option_map, Some, None};
ghost use Rattle.dns_rdata.specs.Soa.{serial_of};
ghost use Rattle.dns_wire.specs.Wire.{message_wire, same_question};
ghost use Rattle.tsig_port.specs.States.{ClientStands};
ghost use Rattle.zone_model.specs.Commits.{Commit};
ghost use Rattle.zone_reads.specs.Session.{rolled_back};
ghost use Rattle.zone_model.specs.Version.{apex_soa};
ghost use Rattle.zone_model.specs.Answer.{apex_soa_record};
ghost use Rattle.xfr_model.specs.Messages.{ReadMessage, type_of, message_of};
ghost use Rattle.xfr_model.specs.Machine.{Place};
ghost use Rattle.zone_model.specs.Updates.{Progress};
ghost use Rattle.xfr_outcomes.specs.ZoneUpdates.{update_of};
ghost use Rattle.xfr_outcomes.specs.declared.update.Error.TheVariants.{Memory};
ghost use Rattle.xfr_client.specs.Places.{first_serial};
ghost use Rattle.xfr_course.specs.Client.{IsBetween};
ghost use Rattle.xfr_outcomes.specs.Modes.{mode_of};
ghost use Rattle.xfr_client.specs.RecordForms.{HaveForms};
ghost use Rattle.xfr_client.specs.SoFar.{Asking, asked_octets, asked_mac, asked_id, asked_question, authority_of, message_so_far, asking, asks_other, AsksWith, CanAsk, CantAsk, IsTooLong, PushesFirst};
ghost use Rattle.xfr_client.specs.Ending.{same_serial, settled};
ghost use Rattle.xfr_client.specs.Standing.{asking_of, Stands, TakesReply, ExchangeStands, ReadsWhole};
ghost use Rattle.xfr_client.specs.Replies.{AnswersReply, AnswersRequest, IsAnswerTo, TestsReply, TakesMessage};
ghost use Rattle.xfr_client.specs.Room.{set_count, is_full, adds_to_full, KeepsAllRoom, StopsAt, ReplyKeepsRoom, ReplyStopsAt};
ghost use Rattle.xfr_client.specs.Growing.{Grows};
ghost use Rattle.xfr_client.specs.Steps.{Ahead, KeepsWish, StaysStill, TakesOne, TakesAll};

use crate::interpreter::XfrResponseInterpreter;
use crate::iterator::XfrZoneUpdateIterator;
use crate::updater_state::UpdaterState;
use dns_name::{KeyName, Labelled, ParsedName, ToName};
use dns_numbers::{Rtype, Serial};
use dns_rdata::{ReadRecord, Record, RecordData};
use dns_wire::{
    AdditionalBuilder, AuthorityBuilder, Header, MessageBuf, MessageBuilder, PushError, Question,
};
use std::alloc::Global;
use std::marker::Model;
use std::sync::Wait;
use tsig_port::{ClientSequence, Key, Time48};
use xfr_outcomes::{SyncError, SyncOk, ZoneUpdate, protocol, update};
use xfr_services::XfrMode;
use zone_diffs::serial_of;
use zone_reads::ReadZone;
use zone_sessions::WriteZone;

/// How many replies a secondary takes in one transfer.
pub const MOST_REPLIES: u32 = 65_536;

/// A request that was made, and how far its replies have led.
#[derive(Drop)]
pub(crate) struct Exchange {
    sequence: ClientSequence<Key>,
    id: u16,
    question: Question<KeyName>,
    // The serial that was asked with, for what is newer.
    serial: Option<Serial>,
    interpreter: XfrResponseInterpreter,
    updater: UpdaterState,
}

/// What a client keeps beside its session, which it is handed with each call.
#[derive(Drop)]
pub(crate) struct Client {
    alloc: Global,
    key: Key,
    mode: XfrMode,
    at: Time48,
    exchange: Option<Exchange>,
    // How many records a set may get.
    most: Option<usize>,
    // The last reply was refused since a set has as many.
    is_full: bool,
}

impl Model for Client {
    ghost use Rattle.xfr_outcomes.specs.Modes.{mode_of};
    ghost use Rattle.xfr_client.specs.Standing.{ClientState};

    ghost Value = { ClientState };

    ghost view = { λ c. record { key = c.key; mode = mode_of c.mode; at = c.at; exchange = c.exchange; most = c.most; full = c.is_full } };
}

impl Client {
    /// A client that made no request yet. It signs, and checks signatures, at this moment.
    pub(crate) fn new(alloc: Global, key: &Key, mode: XfrMode, at: Time48) -> Client
        ensures { result ≡ record { key = key.now; mode = mode_of mode; at = at; exchange = None; most = None; full = false } }
    {
        Client {
            alloc,
            key: key.duplicate(),
            mode,
            at,
            exchange: None,
            most: None,
            is_full: false,
        }
    }

    /// Limits how many records an owner and type may get: a reply that adds one more is refused before it is added.
    /// Without a limit there may be as many as come.
    pub(crate) fn limit_sets(&mut self, most: usize)
        ensures { self.new ≡ record self.old { most = Some most } }
    {
        self.most = Some(most);
    }

    /// Whether the last reply was answered by `Memory` since it adds a record to a set that has as many as it may.
    pub(crate) fn has_full_set(&self) -> bool
        ensures { result ≡ self.now.full }
    {
        self.is_full
    }

    /// Whether a request was made, and neither an outcome nor a refusal came since.
    pub(crate) fn is_open(&self) -> bool
        ensures { result ≡ is_some self.now.exchange }
    {
        self.exchange.is_some()
    }

    /// Drops what is pending, and makes the signed request: the id is the low 16 bits of the moment, all flags are 0, the question
    /// is the zone's apex (RFC 5936, 2.1), and for what is newer the first apex SOA record is its authority (RFC 1995, 3). `NoSoa`
    /// where there is none then; `Request(ShortBuf)` where it has more octets than these or than a message.
    pub(crate) fn request(
        &mut self,
        session: &mut WriteZone<'_>,
        max_len: usize,
    ) -> Result<MessageBuf, SyncError>
        ensures ok { IfOk result (λ m. (m ≡ asked_octets (asking_of self.old session.old.current)) × CanAsk (asking_of self.old session.old.current) max_len) }
        // The client stands for no reply yet.
        ensures begun { OnOk result ((handles : List Commit) → Stands self.new session.new (asking_of self.old session.old.current) [] handles handles) }
        ensures refused { IfErr result (λ e. CantAsk (asking_of self.old session.old.current) max_len e) }
        // Nothing is pending, and the current version stays.
        ensures session { session.new ≡ record (rolled_back session.old) { has_handle = session.new.has_handle } }
        ensures closed { OnErr result (self.new.exchange ≡ None) }
        ensures asks { asking_of self.new session.new.current ≡ asking_of self.old session.old.current }
        ensures limit { (self.new.most ≡ self.old.most) × (self.new.full ≡ false) }
    {
        self.exchange = None;
        self.is_full = false;
        session.rollback();
        let zone = session.handle()?;
        // For the proof: a version's number has 64 bits.
        let _number = zone.version_number();
        let serial = asked_with(self.mode, &zone)?;
        let question = self.question_of(&zone);
        let id = (u64::from(self.at) % 65_536) as u16;
        let mut items = ask(self.alloc, id, &question, self.mode, &zone)?;
        let sequence = ClientSequence::request(self.key.duplicate(), &mut items, self.at)?;
        let message = items.finish();
        if message.as_slice().len() > max_len {
            return Err(SyncError::Request(PushError::ShortBuf));
        }
        self.exchange = Some(Exchange {
            sequence,
            id,
            question,
            serial,
            interpreter: XfrResponseInterpreter::new(),
            updater: UpdaterState::new(self.alloc),
        });
        Ok(message)
    }

    /// The question that asks for a zone.
    fn question_of(&self, zone: &ReadZone) -> Question<KeyName>
        ensures { result ≡ record { qname = zone.now.version.apex; qtype = type_of self.now.mode; qclass = zone.now.version.class } }
    {
        Question::new(
            zone.apex_name().to_key_name(),
            self.mode.rtype(),
            zone.class(),
        )
    }

    /// Takes a reply: checks its signature, and applies the updates that it says. The outcome, where the transfer ends with it, is
    /// told, and so is a refusal; after either the client isn't open and nothing is pending. `UpToDate` is told where the first reply
    /// to a question for what is newer is one SOA record alone, with the serial that was asked with (RFC 1995, 2); with another serial
    /// that is `Iteration(SingleSoaIxfrTcpRetrySignal)`. Each version that is committed gives a handle at the end of `made`. It may
    /// wait where it commits.
    ///
    /// `Memory` comes too where the reply adds a record to a set that has as many as it may, which `has_full_set` tells then; that
    /// record isn't added, and what the updates before it committed stays.
    pub(crate) fn take<R: Wait>(
        &mut self,
        rt: &R,
        session: &mut WriteZone<'_>,
        octets: Vec<u8>,
        made: &mut Vec<ReadZone>,
    ) -> Result<Option<SyncOk>, SyncError>
        requires { IsSome self.old.exchange }
        ensures takes { (base : Commit) (taken : List (List ℕ)) (before : List Commit) → Stands self.old session.old (asking_of self.old base) taken before made.old.items
            → TakesReply (asking_of self.old base) self.new session.new before made.new.items taken octets.items result }
        ensures asks { (base : Commit) → asking_of self.new base ≡ asking_of self.old base }
        ensures closed { result ≢ Ok None → self.new.exchange ≡ None }
        ensures open { result ≡ Ok None → IsSome self.new.exchange }
        ensures pending { result ≢ Ok None → session.new.pending ≡ session.new.current.version }
        // .. and no difference is wanted of the next commit.
        ensures wish { result ≢ Ok None → session.new.compares ≡ false }
        // In between one is wanted as before, where no version was committed ..
        ensures keeps { result ≡ Ok None → KeepsWish session.old session.new }
        // .. and by a reply after which the client is in a whole text none was.
        ensures still { (base : Commit) (taken : List (List ℕ)) (before : List Commit) → result ≡ Ok None → Stands self.old session.old (asking_of self.old base) taken before made.old.items
            → ReadsWhole (asking_of self.old base) (taken ++ octets.items ∷ []) → StaysStill session.old session.new }
        // The updates that were done of it had room ..
        ensures room { (base : Commit) (taken : List (List ℕ)) (before : List Commit) → Stands self.old session.old (asking_of self.old base) taken before made.old.items
            → ReplyKeepsRoom self.old.most (asking_of self.old base) session.new before made.new.items taken octets.items result }
        // .. and where `Memory` is the answer, the flag tells whether the next one has none; else it is low.
        ensures stops { (base : Commit) (taken : List (List ℕ)) (before : List Commit) → Stands self.old session.old (asking_of self.old base) taken before made.old.items
            → result ≡ Err SyncError.Memory → ReplyStopsAt self.old.most (asking_of self.old base) session.new before made.new.items taken octets.items self.new.full }
        ensures full { self.new.full ≡ true → result ≡ Err SyncError.Memory }
        // The zone's history gains the commits of the handles that came.
        ensures history { Grows session.old.past session.new.past made.old.items made.new.items }
        ensures limit { self.new.most ≡ self.old.most }
    {
        let Some(mut exchange) = self.exchange.take() else {
            unreachable!()
        };
        let mut is_full = false;
        self.is_full = false;
        match exchange.take(rt, session, octets, self.at, self.most, &mut is_full, made) {
            Ok(None) => {
                self.exchange = Some(exchange);
                Ok(None)
            }
            Ok(Some(outcome)) => {
                session.rollback();
                Ok(Some(outcome))
            }
            Err(error) => {
                self.is_full = is_full;
                session.rollback();
                Err(error)
            }
        }
    }
}

impl Exchange {
    /// Takes a reply: its signature, its tests and its updates.
    fn take<R: Wait>(
        &mut self,
        rt: &R,
        session: &mut WriteZone<'_>,
        octets: Vec<u8>,
        at: Time48,
        most: Option<usize>,
        full: &mut bool,
        made: &mut Vec<ReadZone>,
    ) -> Result<Option<SyncOk>, SyncError>
        ensures takes { (a : Asking) (taken : List (List ℕ)) (before : List Commit) → a.at ≡ at → ExchangeStands self.old session.old a taken before made.old.items
            → TakesMessage a self.new session.new before made.new.items taken octets.items result }
        ensures keeps { result ≡ Ok None → KeepsWish session.old session.new }
        ensures room { (a : Asking) (taken : List (List ℕ)) (before : List Commit) → a.at ≡ at → ExchangeStands self.old session.old a taken before made.old.items
            → ReplyKeepsRoom most a session.new before made.new.items taken octets.items result }
        ensures full { full.old ≡ false → full.new ≡ true → result ≡ Err SyncError.Memory }
        ensures history { Grows session.old.past session.new.past made.old.items made.new.items }
        ensures stops { (a : Asking) (taken : List (List ℕ)) (before : List Commit) → a.at ≡ at → ExchangeStands self.old session.old a taken before made.old.items
            → full.old ≡ false → result ≡ Err SyncError.Memory → ReplyStopsAt most a session.new before made.new.items taken octets.items full.new }
    {
        let message = self.checked(octets, at)?;
        let updates = self.read(&message)?;
        if let Err(error) = apply_all(rt, session, &mut self.updater, updates, most, full, made) {
            return self.settle(error);
        }
        if self.interpreter.is_finished() {
            Ok(Some(SyncOk::Updated))
        } else {
            Ok(None)
        }
    }

    /// What ends a message's updates: an SOA alone whose serial is the one asked with says that nothing is newer (RFC 1995, 2).
    fn settle(&self, error: SyncError) -> Result<Option<SyncOk>, SyncError>
        ensures { result ≡ settled (first_serial self.now.interpreter.place) self.now.serial error }
    {
        match error {
            SyncError::Iteration(protocol::IterationError::SingleSoaIxfrTcpRetrySignal) => {
                if self.is_current() {
                    Ok(Some(SyncOk::UpToDate))
                } else {
                    Err(error)
                }
            }
            _ => Err(error),
        }
    }

    /// Whether the first SOA that came has the serial that was asked with.
    fn is_current(&self) -> bool
        ensures { result ≡ same_serial (first_serial self.now.interpreter.place) self.now.serial }
    {
        match (self.interpreter.initial_serial(), self.serial) {
            (Some(found), Some(asked)) => found == asked,
            _ => false,
        }
    }

    /// A reply that has a header, and whose signature passes the tests after those taken before; it loses its TSIG.
    fn checked(&mut self, octets: Vec<u8>, at: Time48) -> Result<MessageBuf, SyncError>
        ensures answers { (a : Asking) (taken : List (List ℕ)) → a.at ≡ at → self.old.sequence.key ≡ a.key → ClientStands (λ k. k) self.old.sequence (asked_mac a) taken
            → AnswersReply a taken octets.items self.new.sequence result }
        ensures others { self.new ≡ record self.old { sequence = self.new.sequence } }
    {
        let mut message = MessageBuf::from_octets(octets)?;
        self.sequence.answer(&mut message, at)?;
        Ok(message)
    }

    /// What a checked reply says, where it answers the request and is one of a transfer.
    fn read<'m>(&mut self, message: &'m MessageBuf) -> Result<XfrZoneUpdateIterator<'m>, SyncError>
        ensures tests { (a : Asking) (begun : Bool) (place : Place) → self.old.id ≡ asked_id a → self.old.question ≡ asked_question a
            → self.old.interpreter ≡ record { begun = begun; place = place; signalled = false } → IsBetween begun place a.mode
            → TestsReply a begun place (message_so_far message.now) self.new.interpreter result }
        ensures others { self.new ≡ record self.old { interpreter = self.new.interpreter } }
    {
        self.answers(message)?;
        Ok(self.interpreter.interpret_response(message)?)
    }

    /// Tests that a reply has the request's id, and the request's question where it has one (RFC 5936, 2.2.1 and 2.2.2), and that
    /// it still parses: a name in it may have pointed into the header.
    fn answers(&self, message: &MessageBuf) -> Result<(), SyncError>
        ensures { (a : Asking) → self.now.id ≡ asked_id a → self.now.question ≡ asked_question a → AnswersRequest a (message_so_far message.now) message.now result }
    {
        if message.header().id != self.id {
            return Err(SyncError::OtherAnswer);
        }
        match message.end() {
            Err(_) => Err(SyncError::Xfr(protocol::Error::NotValidXfrResponse)),
            Ok(_) => self.questions_answer(message),
        }
    }

    /// Tests that a reply that parses has the request's question where it has one.
    fn questions_answer(&self, message: &MessageBuf) -> Result<(), SyncError>
        ensures { (m : ReadMessage) → message_of message.now ≡ Some m → IsAnswerTo (asks_other self.now.question m.questions) result }
    {
        if self.asks_else(message) {
            return Err(SyncError::OtherAnswer);
        }
        Ok(())
    }

    /// Whether a reply has one question, which isn't the request's.
    fn asks_else(&self, message: &MessageBuf) -> bool
        ensures { (m : ReadMessage) → message_of message.now ≡ Some m → result ≡ asks_other self.now.question m.questions }
    {
        match message.sole_question() {
            Ok(question) => !self.is_asked(&question),
            Err(_) => false,
        }
    }

    /// Whether a question is the request's.
    fn is_asked(&self, question: &Question<ParsedName<'_>>) -> bool
        ensures { result ≡ same_question self.now.question question.now }
    {
        self.question.qname().name_eq(question.qname())
            && self.question.qtype() == question.qtype()
            && self.question.qclass() == question.qclass()
    }
}

/// The serial to ask with: none for a whole zone; for what is newer that of the first apex SOA record, without which `NoSoa` (RFC 1995, 3).
fn asked_with(mode: XfrMode, zone: &ReadZone) -> Result<Option<Serial>, SyncError>
    ensures { AsksWith (mode_of mode) zone.now.version result }
{
    match mode {
        XfrMode::Axfr => Ok(None),
        XfrMode::Ixfr => match apex_serial(zone) {
            Some(serial) => Ok(Some(serial)),
            None => Err(SyncError::NoSoa),
        },
    }
}

/// The serial of the first apex SOA record, if there is one.
fn apex_serial(zone: &ReadZone) -> Option<Serial>
    ensures { result ≡ option_map serial_of (apex_soa zone.now.version) }
{
    let version = zone.contents();
    let found = version.set_at(version.apex(), Rtype::SOA)?;
    match found.data().first() {
        Some(item) => Some(serial_of(item)),
        None => None,
    }
}

/// A request, unsigned yet: its question, and for what is newer the zone's first apex SOA record as authority.
fn ask(
    alloc: Global,
    id: u16,
    question: &Question<KeyName>,
    mode: XfrMode,
    zone: &ReadZone,
) -> Result<AdditionalBuilder, SyncError>
    ensures ok { IfOk result (λ b. b ≡ record { octets = message_wire (asking id question.now (authority_of (mode_of mode) zone.now.version)); limit = 65535 }) }
    ensures refused { IfErr result (λ e. IsTooLong 65535 (message_wire (asking id question.now (authority_of (mode_of mode) zone.now.version))) e) }
    ensures forms { OnOk result (HaveForms (authority_of (mode_of mode) zone.now.version)) }
{
    let mut builder = MessageBuilder::new(alloc)?;
    builder.set_header(Header::new(id));
    let mut questions = builder.question();
    questions.push(question)?;
    let mut authority = questions.answer().authority();
    push_authority(&mut authority, mode, zone)?;
    Ok(authority.additional())
}

/// The authority of a request: for what is newer the first apex SOA record, if there is one (RFC 1995, 3). It has a wire form.
fn push_authority(
    authority: &mut AuthorityBuilder,
    mode: XfrMode,
    zone: &ReadZone,
) -> Result<(), PushError>
    ensures pushes { PushesFirst 8 (authority_of (mode_of mode) zone.now.version) authority.old result authority.new }
    ensures forms { HaveForms (authority_of (mode_of mode) zone.now.version) }
{
    match mode {
        XfrMode::Axfr => Ok(()),
        XfrMode::Ixfr => push_soa(authority, zone),
    }
}

/// The first apex SOA record, if there is one.
fn push_soa(authority: &mut AuthorityBuilder, zone: &ReadZone) -> Result<(), PushError>
    ensures pushes { PushesFirst 8 (apex_soa_record zone.now.version) authority.old result authority.new }
    ensures forms { HaveForms (apex_soa_record zone.now.version) }
{
    let Some(found) = zone.rrset_at(zone.apex_name(), Rtype::SOA) else {
        return Ok(());
    };
    let Some(rdata) = found.data().first() else {
        return Ok(());
    };
    let owner = zone.apex_name().borrowed();
    // For the proof: the data are of their type, and fit RDLENGTH.
    let _len = rdata.rdlen();
    authority.push(&Record::new(owner, zone.class(), found.ttl(), rdata))
}

/// Applies the updates of one message in order, and adds a handle for each version that they commit.
fn apply_all<R: Wait>(
    rt: &R,
    session: &mut WriteZone<'_>,
    updater: &mut UpdaterState,
    mut updates: XfrZoneUpdateIterator<'_>,
    most: Option<usize>,
    full: &mut bool,
    made: &mut Vec<ReadZone>,
) -> Result<(), SyncError>
    ensures takes { (base : Commit) (before : List Commit) (g : Progress) → Ahead base before updater.old session.old made.old.items g
        → TakesAll base before updater.new session.new made.new.items g updates.entry result }
    ensures keeps { OnOk result (KeepsWish session.old session.new) }
    ensures room { (base : Commit) (before : List Commit) (g : Progress) → Ahead base before updater.old session.old made.old.items g
        → KeepsAllRoom most base before session.new made.new.items g updates.entry.run.updates result }
    ensures full { full.old ≡ false → full.new ≡ true → result ≡ Err SyncError.Memory }
    ensures history { Grows session.old.past session.new.past made.old.items made.new.items }
    ensures stops { (base : Commit) (before : List Commit) (g : Progress) → Ahead base before updater.old session.old made.old.items g
        → full.old ≡ false → result ≡ Err SyncError.Memory → StopsAt most base before session.new made.new.items g updates.entry.run.updates full.new }
{
    'updates: while let Some(update) = updates.next_update() {
        apply_one(rt, session, updater, update?, most, full, made)?;
    }
    Ok(())
}

/// Applies one update, and adds a handle for the version that it commits, for which there is room beforehand. What a commit tells isn't
/// looked at. A record isn't added to a set that has as many as it may.
fn apply_one<R: Wait>(
    rt: &R,
    session: &mut WriteZone<'_>,
    updater: &mut UpdaterState,
    update: ZoneUpdate<ReadRecord<'_>>,
    most: Option<usize>,
    full: &mut bool,
    made: &mut Vec<ReadZone>,
) -> Result<(), update::Error>
    ensures takes { (base : Commit) (before : List Commit) (g : Progress) → Ahead base before updater.old session.old made.old.items g
        → TakesOne base before updater.new session.new made.new.items g (update_of update.entry) result }
    ensures keeps { OnOk result (KeepsWish session.old session.new) }
    ensures room { (result ≡ Err Memory) ⊎ (adds_to_full most session.old.pending (update_of update.entry) ≡ false) }
    ensures full { full.old ≡ false → full.new ≡ adds_to_full most session.old.pending (update_of update.entry) }
    ensures history { Grows session.old.past session.new.past made.old.items made.new.items }
{
    if adds_to_full(session, most, &update) {
        *full = true;
        drop(update);
        return Err(update::Error::Memory);
    }
    if made.reserve(1).is_err() {
        drop(update);
        return Err(update::Error::Memory);
    }
    let commits = update.commits();
    let told = updater.apply(rt, session, update)?;
    drop(told);
    if commits {
        let Ok(handle) = session.handle() else {
            unreachable!()
        };
        let Ok(()) = made.push(handle) else {
            unreachable!()
        };
    }
    Ok(())
}

/// Whether an update adds a record to a set that is full.
fn adds_to_full(
    session: &WriteZone<'_>,
    most: Option<usize>,
    update: &ZoneUpdate<ReadRecord<'_>>,
) -> bool
    ensures { result ≡ adds_to_full most session.now.pending (update_of update.now) }
{
    match update {
        ZoneUpdate::AddRecord(added) => has_no_room(session, most, added),
        ZoneUpdate::DeleteAllRecords
        | ZoneUpdate::DeleteRecord(_)
        | ZoneUpdate::BeginBatchDelete(_)
        | ZoneUpdate::BeginBatchAdd(_)
        | ZoneUpdate::Finished(_) => false,
    }
}

/// Whether the set of a record is full. Without a limit it isn't looked up.
fn has_no_room(session: &WriteZone<'_>, most: Option<usize>, added: &ReadRecord<'_>) -> bool
    ensures { result ≡ is_full most (set_count session.now.pending added.now.owner added.now.rtype) }
{
    match most {
        Some(most) => most <= set_count(session, added),
        None => false,
    }
}

/// How many records the pending set of a record's owner and type has.
fn set_count(session: &WriteZone<'_>, added: &ReadRecord<'_>) -> usize
    ensures { result ≡ set_count session.now.pending added.now.owner added.now.rtype }
{
    match session.rrset_at(added.owner(), added.rtype()) {
        Some(found) => found.data().len(),
        None => 0,
    }
}
