//! The lines of a script once its zones are open: edits of the primary's zone, and questions.
ghost use Rattle.std.specs.Prelude.{◌≡◌, ◌<◌, ◌≤◌, ◌+◌, ◌^◌, length, Ok, Err, IfOk, IfErr, IfSome, OnOk};
ghost use Rattle.zone_model.specs.Edits.{close};
ghost use Rattle.zone_model.specs.Commits.{next_commit};
ghost use Rattle.zone_model.specs.Offer.{difference_if};
ghost use Rattle.zone_script.specs.Script as scripts;
ghost use Rattle.zone_script.specs.Script.{script_lines};
ghost use Rattle.zone_script.specs.Keeping as keeping;
ghost use Rattle.zone_script.specs.Keeping.{edited};
ghost use Rattle.zone_script.specs.Lines.{line_of, change_of};
ghost use Rattle.zone_script.specs.Causes.{line_in, edit_cause};

use crate::commits::Commits;
use crate::fields::{Change, Line, read_line};
use crate::lines::{is_skipped, next_line};
use crate::script::ScriptError;
use dns_name::StoredName;
use dns_numbers::{Class, Rtype};
use dns_rdata::StoredRecord;
use std::alloc::{AllocError, Global};
use std::sync::Wait;
use zone_diffs::InMemoryZoneDiff;
use zone_lookup::Queries;
use zone_sessions::{CommitError, EditError, WriteZone};

/// What was read besides the edits that are pending in the primary's session.
#[derive(Drop)]
pub(crate) struct Editing {
    class: Class,
    asks: bool,
    pub(crate) commits: Commits,
    pub(crate) queries: Queries,
}

impl Editing {
    /// Nothing was edited or asked, in a zone of this class.
    pub(crate) fn new(alloc: Global, class: Class) -> Editing
        ensures { result ≡ keeping.nothing_edited class }
    {
        Editing {
            class,
            asks: false,
            commits: Commits::new(alloc),
            queries: Queries::new(alloc),
        }
    }

    /// Reads the line of this number. There are fewer commits than lines, so their numbers don't run out.
    fn read<R: Wait>(
        &mut self,
        rt: &R,
        alloc: Global,
        session: &mut WriteZone<'_>,
        number: u64,
        text: &[u8],
    ) -> Result<(), ScriptError>
        requires { session.old.current.number < number }
        ensures ok { OnOk result (keeping.take_later_text (edited session.old self.old) number text.now ≡ Ok (edited session.new self.new)) }
        ensures bad { IfErr result (λ e. IfSome (line_in e) (λ n. keeping.take_later_text (edited session.old self.old) number text.now ≡ Err n)) }
        ensures numbers { OnOk result (session.new.current.number ≤ number) }
    {
        if is_skipped(text) {
            return Ok(());
        }
        match read_line(alloc, text)? {
            Some(line) => self.take(rt, session, number, line),
            None => Err(ScriptError::Line(number)),
        }
    }

    /// Takes a line where it may stand.
    fn take<R: Wait>(
        &mut self,
        rt: &R,
        session: &mut WriteZone<'_>,
        number: u64,
        line: Line,
    ) -> Result<(), ScriptError>
        requires { session.old.current.number < number }
        ensures ok { OnOk result (keeping.take_later (edited session.old self.old) number (line_of line) ≡ Ok (edited session.new self.new)) }
        ensures bad { IfErr result (λ e. IfSome (line_in e) (λ n. keeping.take_later (edited session.old self.old) number (line_of line) ≡ Err n)) }
        ensures numbers { OnOk result (session.new.current.number ≤ number) }
    {
        match line {
            Line::Change(change) => self.take_change(rt, session, number, change),
            Line::Query(qname, qtype) => Ok(self.ask(qname, qtype)?),
            Line::Zone(apex, _) => late(apex, number),
            Line::Key(key) => late(key, number),
            Line::At(_, _) => Err(ScriptError::Line(number)),
            Line::Primary(found) => late(found, number),
            Line::Secondary(found) => late(found, number),
        }
    }

    /// Keeps a question.
    fn ask(&mut self, qname: StoredName, qtype: Rtype) -> Result<(), AllocError>
        ensures { OnOk result (self.new ≡ keeping.with_question self.old qname qtype) }
    {
        self.queries.push(qname, qtype)?;
        self.asks = true;
        Ok(())
    }

    /// Whether an edit may come: before the questions, and with a record of the zone's class.
    #[tactic(auto, unfolding(crate::specs::Keeping::may_change))]
    fn may_change(&self, change: &Change) -> bool
        ensures { result ≡ keeping.may_change self.now (change_of change.now) }
    {
        !self.asks && change.is_of_class(self.class)
    }

    /// Makes an edit where it may come.
    fn take_change<R: Wait>(
        &mut self,
        rt: &R,
        session: &mut WriteZone<'_>,
        number: u64,
        change: Change,
    ) -> Result<(), ScriptError>
        requires { session.old.current.number < number }
        ensures ok { OnOk result (keeping.take_change (edited session.old self.old) number (change_of change) ≡ Ok (edited session.new self.new)) }
        ensures bad { IfErr result (λ e. IfSome (line_in e) (λ n. keeping.take_change (edited session.old self.old) number (change_of change) ≡ Err n)) }
        ensures numbers { OnOk result (session.new.current.number ≤ number) }
    {
        if !self.may_change(&change) {
            drop(change);
            return Err(ScriptError::Line(number));
        }
        self.make_change(rt, session, number, change)
    }

    /// Makes an edit.
    fn make_change<R: Wait>(
        &mut self,
        rt: &R,
        session: &mut WriteZone<'_>,
        number: u64,
        change: Change,
    ) -> Result<(), ScriptError>
        requires { session.old.current.number < number }
        ensures ok { OnOk result (keeping.make_change (edited session.old self.old) number (change_of change) ≡ Ok (edited session.new self.new)) }
        ensures bad { IfErr result (λ e. IfSome (line_in e) (λ n. keeping.make_change (edited session.old self.old) number (change_of change) ≡ Err n)) }
        ensures numbers { OnOk result (session.new.current.number ≤ number) }
    {
        match change {
            Change::Plus(added) => self.add_record(session, number, added),
            Change::Minus(deleted) => self.delete_record(session, number, deleted),
            Change::Commit => self.commit(rt, session, number),
        }
    }

    /// Publishes what is pending, and keeps the version with its difference from the one before.
    fn commit<R: Wait>(
        &mut self,
        rt: &R,
        session: &mut WriteZone<'_>,
        number: u64,
    ) -> Result<(), ScriptError>
        requires { session.old.current.number < number }
        ensures ok { OnOk result (keeping.with_commit (edited session.old self.old) ≡ edited session.new self.new) }
        ensures memory { IfErr result (λ e. e ≡ ScriptError.Memory) }
        ensures numbers { OnOk result (session.new.current.number ≤ number) }
    {
        let told = publish(rt, session, number)?;
        match session.handle() {
            Ok(handle) => Ok(self.commits.push(handle, told)?),
            Err(_) => {
                drop(told);
                Err(ScriptError::Memory)
            }
        }
    }

    /// Adds a record to what is pending.
    #[tactic(auto, using(crate::proofs::EditCauses::add_refused))]
    fn add_record(
        &self,
        session: &mut WriteZone<'_>,
        number: u64,
        added: StoredRecord,
    ) -> Result<(), ScriptError>
        ensures ok { OnOk result (keeping.make_change (edited session.old self.now) number (scripts.Plus added) ≡ Ok (edited session.new self.now)) }
        ensures bad { IfErr result (λ e. IfSome (line_in e) (λ n. keeping.make_change (edited session.old self.now) number (scripts.Plus added) ≡ Err n)) }
        ensures same { session.new.current ≡ session.old.current }
    {
        match session.add_record(added) {
            Ok(()) => Ok(()),
            Err(error) => Err(cause_of(number, error)),
        }
    }

    /// Deletes a record from what is pending.
    #[tactic(auto, using(crate::proofs::EditCauses::delete_refused))]
    fn delete_record(
        &self,
        session: &mut WriteZone<'_>,
        number: u64,
        deleted: StoredRecord,
    ) -> Result<(), ScriptError>
        ensures ok { OnOk result (keeping.make_change (edited session.old self.now) number (scripts.Minus deleted) ≡ Ok (edited session.new self.now)) }
        ensures bad { IfErr result (λ e. IfSome (line_in e) (λ n. keeping.make_change (edited session.old self.now) number (scripts.Minus deleted) ≡ Err n)) }
        ensures same { session.new.current ≡ session.old.current }
    {
        let answer = session.delete_record(&deleted);
        drop(deleted);
        match answer {
            Ok(()) => Ok(()),
            Err(error) => Err(cause_of(number, error)),
        }
    }
}

/// Refuses a line of the opening at its number.
fn late<T: Drop>(line: T, number: u64) -> Result<(), ScriptError>
    ensures { result ≡ Err (ScriptError.Line number) }
{
    drop(line);
    Err(ScriptError::Line(number))
}

/// Publishes what is pending, and tells the difference. The session is asked for it each time, since its wish ends with a commit.
#[tactic(auto, using(crate::proofs::EditCauses::told_is))]
fn publish<R: Wait>(
    rt: &R,
    session: &mut WriteZone<'_>,
    number: u64,
) -> Result<Option<InMemoryZoneDiff>, ScriptError>
    requires { session.old.current.number < number }
    ensures current { OnOk result (session.new.current ≡ next_commit session.old.current session.old.pending) }
    ensures pending { OnOk result (session.new.pending ≡ close session.old.pending) }
    ensures told { IfOk result (λ d. d ≡ difference_if session.old.current.version (close session.old.pending)) }
    ensures memory { IfErr result (λ e. e ≡ ScriptError.Memory) }
{
    session.want_difference(true);
    match session.commit(rt, false) {
        Ok(told) => Ok(told),
        Err(CommitError::Memory) => Err(ScriptError::Memory),
        Err(CommitError::VersionsExhausted) => Err(ScriptError::Line(number)),
    }
}

/// What the refusal of an edit says of the script: its line, but want of memory stays that.
fn cause_of(number: u64, refused: EditError) -> ScriptError
    ensures { result ≡ edit_cause number refused }
{
    match refused {
        EditError::Memory => ScriptError::Memory,
        _ => ScriptError::Line(number),
    }
}

/// Reads lines, the first of which has this number.
pub(crate) fn read_rest<R: Wait>(
    rt: &R,
    alloc: Global,
    session: &mut WriteZone<'_>,
    editing: &mut Editing,
    number: u64,
    text: &[u8],
) -> Result<(), ScriptError>
    requires commits { session.old.current.number < number }
    requires lines { number + length text.now < 2 ^ 64 }
    ensures ok { OnOk result (keeping.take_rest (Ok (edited session.old editing.old)) number (script_lines text.now) ≡ Ok (edited session.new editing.new)) }
    ensures bad { IfErr result (λ e. IfSome (line_in e) (λ n. keeping.take_rest (Ok (edited session.old editing.old)) number (script_lines text.now) ≡ Err n)) }
{
    let mut rest = text;
    let mut number = number;
    'lines: while let Some((line, behind)) = next_line(rest) {
        editing.read(rt, alloc, session, number, line)?;
        rest = behind;
        number += 1;
    }
    Ok(())
}
