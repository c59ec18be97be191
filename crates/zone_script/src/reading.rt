//! The lines of a script up to the first edit or question, and the zones that they open.
ghost use Rattle.std.specs.Prelude.{◌≡◌, ◌==◌, Some, None, Ok, Err, IfOk, IfErr, IfSome, IsSomeAnd, OnOk};
ghost use Rattle.zone_script.specs.Script.{stage_of};
ghost use Rattle.zone_script.specs.Keeping as keeping;
ghost use Rattle.zone_script.specs.Lines.{line_of};
ghost use Rattle.zone_script.specs.Causes.{line_in};

use crate::fields::{Line, read_line};
use crate::lines::is_skipped;
use crate::opening::OpeningZone;
use crate::script::ScriptError;
use dns_name::StoredName;
use dns_numbers::Class;
use dns_rdata::StoredRecord;
use std::alloc::{AllocError, Global};
use tsig_port::{Key, Time48};
use zone_reads::ReadZone;

/// The two zones as they are read.
#[derive(Drop)]
pub(crate) struct Zones {
    primary: OpeningZone,
    secondary: OpeningZone,
}

impl Zones {
    /// Two zones without records.
    fn new(alloc: Global, apex: StoredName, class: Class) -> Result<Zones, AllocError>
        ensures { IfOk result (λ z. z ≡ keeping.empty_zones apex class) }
    {
        let primary = OpeningZone::new(alloc, apex.clone()?, class);
        Ok(Zones {
            primary,
            secondary: OpeningZone::new(alloc, apex, class),
        })
    }

    /// The zones open, with what else the lines say. Where the records of one make no zone, the line of its last record, the primary's before the secondary's.
    fn open(self, key: Key, at_primary: Time48, at_secondary: Time48) -> Result<Opened, ScriptError>
        ensures ok { IfOk result (λ o. (keeping.zones_refusal (Some self) ≡ None) × (o ≡ record { key = key; at_primary = at_primary; at_secondary = at_secondary; primary = keeping.commit_of self.primary; secondary = keeping.commit_of self.secondary })) }
        ensures bad { IfErr result (λ e. IfSome (line_in e) (λ n. keeping.zones_refusal (Some self) ≡ Some n)) }
        ensures first { IfOk result (λ o. o.primary.number ≡ 0) }
    {
        let Zones { primary, secondary } = self;
        match primary.build() {
            Ok(primary) => match secondary.build() {
                Ok(secondary) => Ok(Opened {
                    key,
                    at_primary,
                    at_secondary,
                    primary,
                    secondary,
                }),
                Err(error) => {
                    drop(primary);
                    drop(key);
                    Err(error)
                }
            },
            Err(error) => {
                drop(secondary);
                drop(key);
                Err(error)
            }
        }
    }
}

/// A script as far as it was read, up to the first edit or question.
#[derive(Drop)]
pub(crate) struct Reading {
    stage: u8,
    zones: Option<Zones>,
    key: Option<Key>,
    at_primary: Time48,
    at_secondary: Time48,
}

/// What the lines up to the first edit or question say.
#[derive(Drop)]
pub(crate) struct Opened {
    pub(crate) key: Key,
    pub(crate) at_primary: Time48,
    pub(crate) at_secondary: Time48,
    pub(crate) primary: ReadZone,
    pub(crate) secondary: ReadZone,
}

impl Reading {
    /// Nothing was read.
    pub(crate) fn new() -> Reading
        ensures { result ≡ keeping.nothing_read }
    {
        Reading {
            stage: 0,
            zones: None,
            key: None,
            at_primary: Time48::from_u64(0),
            at_secondary: Time48::from_u64(0),
        }
    }

    /// Whether the line that was read last is the first edit or question. It is left, to be read once the zones are open.
    pub(crate) fn is_over(&self) -> bool
        ensures { result ≡ (self.now.stage == 6) }
    {
        self.stage == 6
    }

    /// Reads the line of this number.
    pub(crate) fn read(
        &mut self,
        alloc: Global,
        number: u64,
        text: &[u8],
    ) -> Result<(), ScriptError>
        ensures ok { OnOk result (keeping.take_text self.old number text.now ≡ Ok self.new) }
        ensures bad { IfErr result (λ e. IfSome (line_in e) (λ n. keeping.take_text self.old number text.now ≡ Err n)) }
    {
        if is_skipped(text) {
            return Ok(());
        }
        match read_line(alloc, text)? {
            Some(line) => self.take(alloc, number, line),
            None => Err(ScriptError::Line(number)),
        }
    }

    /// Takes a line where it may stand.
    fn take(&mut self, alloc: Global, number: u64, line: Line) -> Result<(), ScriptError>
        ensures ok { OnOk result (keeping.take_line self.old number (line_of line) ≡ Ok self.new) }
        ensures bad { IfErr result (λ e. IfSome (line_in e) (λ n. keeping.take_line self.old number (line_of line) ≡ Err n)) }
    {
        if !self.may_stand(&line) {
            drop(line);
            return Err(ScriptError::Line(number));
        }
        self.put(alloc, number, line)
    }

    /// Whether a line may stand here: its stage may come, and the record of an edit is of the zones' class.
    #[tactic(auto, unfolding(crate::specs::Keeping::may_stand))]
    fn may_stand(&self, line: &Line) -> bool
        ensures { result ≡ keeping.may_stand self.now (line_of line.now) }
    {
        self.may_come(line.stage()) && self.is_of_zones(line)
    }

    /// Whether the record of an edit is of the zones' class.
    fn is_of_zones(&self, line: &Line) -> bool
        ensures { result ≡ keeping.is_of_zones self.now.zones (line_of line.now) }
    {
        match &self.zones {
            Some(zones) => line.is_of_class(zones.primary.class()),
            None => true,
        }
    }

    /// Puts a line to what was read. An edit or a question is left.
    fn put(&mut self, alloc: Global, number: u64, line: Line) -> Result<(), ScriptError>
        ensures ok { OnOk result (keeping.put_line self.old number (line_of line) ≡ Ok self.new) }
        ensures bad { IfErr result (λ e. IfSome (line_in e) (λ n. keeping.put_line self.old number (line_of line) ≡ Err n)) }
    {
        match line {
            Line::Zone(apex, class) => self.begin_zones(alloc, apex, class),
            Line::Key(key) => Ok(self.put_key(key)),
            Line::At(at_primary, at_secondary) => Ok(self.put_times(at_primary, at_secondary)),
            Line::Primary(found) => self.take_primary(found, number),
            Line::Secondary(found) => self.take_secondary(found, number),
            Line::Change(change) => Ok(self.leave(change)),
            Line::Query(qname, _) => Ok(self.leave(qname)),
        }
    }

    /// Begins zones of this apex and class, without records.
    fn begin_zones(
        &mut self,
        alloc: Global,
        apex: StoredName,
        class: Class,
    ) -> Result<(), ScriptError>
        ensures ok { OnOk result (self.new ≡ record self.old { stage = 1; zones = Some (keeping.empty_zones apex class) }) }
        ensures memory { IfErr result (λ e. e ≡ ScriptError.Memory) }
    {
        match Zones::new(alloc, apex, class) {
            Ok(zones) => {
                drop(self.zones.replace(zones));
                self.stage = 1;
                Ok(())
            }
            Err(_) => Err(ScriptError::Memory),
        }
    }

    /// Puts the key to what was read.
    fn put_key(&mut self, key: Key)
        ensures { self.new ≡ record self.old { stage = 2; key = Some key } }
    {
        drop(self.key.replace(key));
        self.stage = 2;
    }

    /// Puts the two moments to what was read.
    fn put_times(&mut self, at_primary: Time48, at_secondary: Time48)
        ensures { self.new ≡ record self.old { stage = 3; at_primary = at_primary; at_secondary = at_secondary } }
    {
        self.at_primary = at_primary;
        self.at_secondary = at_secondary;
        self.stage = 3;
    }

    /// Puts a record into the primary's zone.
    fn take_primary(&mut self, found: StoredRecord, number: u64) -> Result<(), ScriptError>
        ensures ok { OnOk result (keeping.with_zones self.old 4 (keeping.into_primary self.old.zones number found) ≡ Ok self.new) }
        ensures bad { IfErr result (λ e. IfSome (line_in e) (λ n. keeping.into_primary self.old.zones number found ≡ Err n)) }
    {
        put_primary(&mut self.zones, found, number)?;
        self.stage = 4;
        Ok(())
    }

    /// Puts a record into the secondary's zone.
    fn take_secondary(&mut self, found: StoredRecord, number: u64) -> Result<(), ScriptError>
        ensures ok { OnOk result (keeping.with_zones self.old 5 (keeping.into_secondary self.old.zones number found) ≡ Ok self.new) }
        ensures bad { IfErr result (λ e. IfSome (line_in e) (λ n. keeping.into_secondary self.old.zones number found ≡ Err n)) }
    {
        put_secondary(&mut self.zones, found, number)?;
        self.stage = 5;
        Ok(())
    }

    /// Leaves the first edit or question.
    fn leave<T: Drop>(&mut self, line: T)
        ensures { self.new ≡ record self.old { stage = 6 } }
    {
        drop(line);
        self.stage = 6;
    }

    /// Whether a line of a stage may stand here: the first three once each, and all after the zone and, but for these two, after the key.
    fn may_come(&self, stage: u8) -> bool
        ensures { result ≡ keeping.may_come self.now stage }
    {
        self.stage <= stage
            && !(stage <= 3 && self.stage == stage)
            && (stage == 1 || self.stage >= 1)
            && (stage <= 2 || self.key.is_some())
    }

    /// What the lines say: the zones open. A script without a key is refused at this number, the one after its last line; a zone whose records make none at
    /// the line of its last record, the primary's before the secondary's.
    pub(crate) fn open(self, number: u64) -> Result<Opened, ScriptError>
        ensures ok { IfOk result (λ o. keeping.open_zones self number ≡ Ok o) }
        ensures bad { IfErr result (λ e. IfSome (line_in e) (λ n. keeping.open_zones self number ≡ Err n)) }
        ensures first { IfOk result (λ o. o.primary.number ≡ 0) }
    {
        let Reading {
            zones,
            key,
            at_primary,
            at_secondary,
            ..
        } = self;
        let Some(zones) = zones else {
            drop(key);
            return Err(ScriptError::Line(number));
        };
        let Some(key) = key else {
            drop(zones);
            return Err(ScriptError::Line(number));
        };
        zones.open(key, at_primary, at_secondary)
    }
}

/// Puts a record into the primary's zone.
fn put_primary(
    zones: &mut Option<Zones>,
    found: StoredRecord,
    number: u64,
) -> Result<(), ScriptError>
    ensures ok { OnOk result (IsSomeAnd zones.new (λ z. keeping.into_primary zones.old number found ≡ Ok z)) }
    ensures bad { IfErr result (λ e. IfSome (line_in e) (λ n. keeping.into_primary zones.old number found ≡ Err n)) }
{
    match zones {
        Some(both) => both.primary.take(found, number),
        None => {
            drop(found);
            Err(ScriptError::Line(number))
        }
    }
}

/// Puts a record into the secondary's zone.
fn put_secondary(
    zones: &mut Option<Zones>,
    found: StoredRecord,
    number: u64,
) -> Result<(), ScriptError>
    ensures ok { OnOk result (IsSomeAnd zones.new (λ z. keeping.into_secondary zones.old number found ≡ Ok z)) }
    ensures bad { IfErr result (λ e. IfSome (line_in e) (λ n. keeping.into_secondary zones.old number found ≡ Err n)) }
{
    match zones {
        Some(both) => both.secondary.take(found, number),
        None => {
            drop(found);
            Err(ScriptError::Line(number))
        }
    }
}
