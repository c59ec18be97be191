// Questions that are kept, to be asked of a version later.
ghost use Rattle.std.specs.Prelude.{◌≡◌, ◌++◌, ◌∷◌, [], OnOk, OnErr};

use dns_name::StoredName;
use dns_numbers::Rtype;
use std::alloc::{AllocError, Global};
use std::marker::Model;

/// A question: a name and a type.
#[derive(Drop)]
pub struct Query {
    qname: StoredName,
    qtype: Rtype,
}

impl Model for Query {
    ghost use Rattle.std.specs.Prelude.{ℕ};
    ghost use Rattle.dns_name.specs.Names.{Name};

    ghost Value = { Name × ℕ };

    ghost view = { λ q. (q.qname, q.qtype) };
}

impl Query {
    /// The name, in the case that it was given in.
    pub fn qname(&self) -> &StoredName
        ensures { result.now ≡ self.now.0 }
    {
        &self.qname
    }

    /// The type.
    pub fn qtype(&self) -> Rtype
        ensures { result ≡ self.now.1 }
    {
        self.qtype
    }
}

/// Questions in order.
#[derive(Drop)]
pub struct Queries {
    entries: Vec<Query>,
}

impl Model for Queries {
    ghost use Rattle.std.specs.Prelude.{ℕ, List};
    ghost use Rattle.dns_name.specs.Names.{Name};

    ghost Value = { List (Name × ℕ) };

    ghost view = { λ q. q.entries.items };
}

impl Queries {
    /// No questions.
    pub fn new(alloc: Global) -> Queries
        ensures { result ≡ [] }
    {
        Queries {
            entries: Vec::new(alloc),
        }
    }

    /// Puts a question after the others. Where memory runs out, the others are all there is.
    pub fn push(&mut self, qname: StoredName, qtype: Rtype) -> Result<(), AllocError>
        ensures ok { OnOk result (self.new ≡ self.old ++ (qname, qtype) ∷ []) }
        ensures memory { OnErr result (self.new ≡ self.old) }
    {
        self.entries.push(Query { qname, qtype })?;
        Ok(())
    }

    /// The questions, in order.
    pub fn as_slice(&self) -> &[Query]
        ensures { result.now ≡ self.now }
    {
        self.entries.as_slice()
    }
}
