// Refusals in order.
ghost use Rattle.std.specs.Prelude.{◌≡◌, ◌++◌, ◌∷◌, [], ◌==◌, ◌<◌, length, OnOk, OnErr, IfOk, IfErr};
ghost use Rattle.zone_values.specs.Invalid.{invalid_records};

use crate::record_errors::{ContextError, RecordError};
use dns_name::{StoredName, ToName};
use std::alloc::{AllocError, Global};
use std::fmt;
use std::marker::Model;

/// One refusal with the name that it is about, as a list prints it.
#[derive(Drop)]
struct Refusal<'e, T: Drop> {
    name: &'e StoredName,
    error: &'e T,
}

impl<'e, T: fmt::Display + Drop> fmt::Display for Refusal<'e, T> {
    ghost use Rattle.zone_values.specs.Texts.{refusal_text};

    ghost output = { λ r. refusal_text T.output (r.name.now, r.error.now) };

    /// The refusal after its name in quotes, with a comma after it.
    fn fmt<W: fmt::Write>(&self, f: &mut fmt::Formatter<W>) -> fmt::Result {
        write!(f, "'{}': {},", self.name, self.error)
    }
}

/// The refusals of a list as it prints them, one after another.
#[derive(Drop)]
struct Refusals<'e, T: Drop> {
    errors: &'e [(StoredName, T)],
}

impl<'e, T: fmt::Display + Drop> fmt::Display for Refusals<'e, T> {
    ghost use Rattle.zone_values.specs.Texts.{refusals_text};

    ghost output = { λ r. refusals_text T.output r.errors.now };

    /// Each refusal, with nothing between them.
    fn fmt<W: fmt::Write>(&self, f: &mut fmt::Formatter<W>) -> fmt::Result {
        for entry in self.errors {
            let refusal = Refusal {
                name: &entry.0,
                error: &entry.1,
            };
            write!(f, "{refusal}")?;
        }
        Ok(())
    }
}

/// Refusals in the order in which they were added, each with the name that it is about.
#[derive(Drop)]
pub struct ZoneErrors<T: Drop> {
    alloc: Global,
    errors: Vec<(StoredName, T)>,
}

impl<T: Drop> Model for ZoneErrors<T> {
    ghost use Rattle.std.specs.Prelude.{List};
    ghost use Rattle.dns_name.specs.Names.{Name};

    ghost Value = { List (Name × T) };

    ghost view = { λ e. e.errors.items };
}

impl<T: Drop> ZoneErrors<T> {
    /// No refusal.
    pub fn new(alloc: Global) -> ZoneErrors<T>
        ensures { result ≡ [] }
    {
        ZoneErrors {
            alloc,
            errors: Vec::new(alloc),
        }
    }

    /// Adds one at the end. Without memory nothing is added.
    pub fn add_error<N: ToName>(&mut self, name: &N, error: T) -> Result<(), AllocError>
        ensures added { OnOk result (self.new ≡ self.old ++ (N.labels name.now, error) ∷ []) }
        ensures kept { OnErr result (self.new ≡ self.old) }
    {
        let name = name.to_stored(self.alloc)?;
        self.push(name, error)
    }

    /// The same with the name itself.
    fn push(&mut self, name: StoredName, error: T) -> Result<(), AllocError>
        ensures added { OnOk result (self.new ≡ self.old ++ (name, error) ∷ []) }
        ensures kept { OnErr result (self.new ≡ self.old) }
    {
        Ok(self.errors.push((name, error))?)
    }

    /// Ok where there is none, else the refusals.
    pub fn unwrap(self) -> Result<(), ZoneErrors<T>>
        ensures none { OnOk result (self ≡ []) }
        ensures some { IfErr result (λ e. e ≡ self) }
        ensures exact { OnErr result (0 < length self) }
    {
        if self.errors.is_empty() {
            Ok(())
        } else {
            Err(self)
        }
    }

    /// Whether there is none.
    pub fn is_empty(&self) -> bool
        ensures { result ≡ (length self.now == 0) }
    {
        self.errors.is_empty()
    }

    /// How many there are.
    pub fn len(&self) -> usize
        ensures { result ≡ length self.now }
    {
        self.errors.len()
    }
}

impl ZoneErrors<ContextError> {
    /// What is wrong with records that were taken, as refusals of records: each is an `InvalidRecord`.
    pub fn into_record_errors(self) -> Result<ZoneErrors<RecordError>, AllocError>
        ensures { IfOk result (λ errors. errors ≡ invalid_records self) }
    {
        let mut errors = ZoneErrors::new(self.alloc);
        for (name, error) in self.errors {
            errors.push(name, RecordError::InvalidRecord(error))?;
        }
        Ok(errors)
    }
}

impl<T: Drop> IntoIterator for ZoneErrors<T> {
    ghost use Rattle.std.specs.Prelude.{◌≡◌};
    ghost use Rattle.std.specs.declared.alloc.Global.{Global};
    ghost use Rattle.std.specs.Iterator.Runs.{EveryRun, ItemsAre};
    ghost use Rattle.std.specs.Vec.Iter.{into_iter_items, into_iter_steps};
    ghost use Rattle.dns_name.specs.Names.{Name};

    type Item = (StoredName, T);

    type IntoIter = std::vec::IntoIter<(StoredName, T)>;

    ghost into_iter_gives = { λ e r. (into_iter_items r ≡ e) × EveryRun (into_iter_steps {X = Name × T} {Z = Global}) (λ p. ItemsAre p (into_iter_items p.from)) };

    fn into_iter(self) -> std::vec::IntoIter<(StoredName, T)> {
        self.errors.into_iter()
    }
}

impl<T: fmt::Display + Drop> fmt::Display for ZoneErrors<T> {
    ghost use Rattle.zone_values.specs.Texts.{list_text};

    ghost output = { λ e. list_text T.output e };

    /// Each refusal after its name in quotes, with a comma after it, in brackets.
    fn fmt<W: fmt::Write>(&self, f: &mut fmt::Formatter<W>) -> fmt::Result {
        let refusals = Refusals {
            errors: self.errors.as_slice(),
        };
        write!(f, "Zone file errors: [{refusals}]")
    }
}

impl<T: fmt::Display + Drop> fmt::Debug for ZoneErrors<T> {
    ghost use Rattle.std.specs.Prelude.{Some, codes};
    ghost use Rattle.std.specs.Fmt.{◌++?◌};
    ghost use Rattle.zone_values.specs.Texts.{list_text};

    ghost debug_output = { λ e. Some (codes "ZoneErrors(") ++? list_text T.output e ++? Some (codes ")") };

    /// `ZoneErrors(TEXT)`, the text as printed.
    fn fmt<W: fmt::Write>(&self, f: &mut fmt::Formatter<W>) -> fmt::Result {
        write!(f, "ZoneErrors({self})")
    }
}
