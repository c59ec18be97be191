// The differences that a provider keeps.
ghost use Rattle.std.specs.Prelude.{◌≡◌, ◌≤◌, [], Some, IfOk, OnOk, OnErr, length, drop, map, if◌then◌else◌};
ghost use Rattle.std.specs.Arc.{arc_value};
ghost use Rattle.zone_model.specs.Offer.{from_serial, after_serial, has_start, pushed};

use dns_numbers::Serial;
use std::alloc::{AllocError, Global};
use std::marker::Model;
use std::sync::Arc;
use zone_diffs::{InMemoryZoneDiff, ZoneDiff};

/// Differences that lead to a version, one after the other, oldest first. Contracts see the list of them.
#[derive(Drop)]
pub(crate) struct KeptDiffs {
    items: Vec<Arc<InMemoryZoneDiff>>,
}

impl Model for KeptDiffs {
    ghost use Rattle.std.specs.Prelude.{List, map};
    ghost use Rattle.std.specs.Arc.{arc_value};
    ghost use Rattle.zone_model.specs.Difference.{Difference};

    ghost Value = { List Difference };

    ghost view = { λ d. map arc_value d.items.items };
}

impl KeptDiffs {
    /// No difference.
    pub(crate) fn new(alloc: Global) -> KeptDiffs
        ensures { result ≡ [] }
    {
        KeptDiffs {
            items: Vec::new(alloc),
        }
    }

    /// What is kept after a push: without a difference nothing, else one more.
    pub(crate) fn update(&mut self, diff: Option<InMemoryZoneDiff>) -> Result<(), AllocError>
        ensures ok { OnOk result (self.new ≡ pushed self.old diff) }
        ensures err { OnErr result (self.new ≡ self.old) }
    {
        match diff {
            Some(diff) => self.push(diff),
            None => {
                self.items.clear();
                Ok(())
            }
        }
    }

    /// One more difference. Where it leads to the serial that a kept one starts at, that one and all older ones go, so that no two start alike.
    fn push(&mut self, diff: InMemoryZoneDiff) -> Result<(), AllocError>
        ensures ok { OnOk result (self.new ≡ pushed self.old (Some diff)) }
        ensures err { OnErr result (self.new ≡ self.old) }
    {
        let outdated = count_outdated(&self.items, diff.end_serial());
        let diff = Arc::new(*self.items.allocator(), diff)?;
        self.items.push(diff)?;
        forget(&mut self.items, outdated);
        Ok(())
    }

    /// The differences from the one that starts at a serial on; none where none does.
    pub(crate) fn from_serial(
        &self,
        alloc: Global,
        serial: Serial,
    ) -> Result<Vec<Arc<InMemoryZoneDiff>>, AllocError>
        ensures { IfOk result (λ ds. map arc_value ds.items ≡ from_serial serial self.now) }
    {
        let mut found = Vec::new(alloc);
        found.extend_with_clones(starting_at(&self.items, serial))?;
        Ok(found)
    }
}

/// The differences from the one that starts at a serial on; none where none does.
fn starting_at(diffs: &[Arc<InMemoryZoneDiff>], serial: Serial) -> &[Arc<InMemoryZoneDiff>]
    ensures { map arc_value result.now ≡ from_serial serial (map arc_value diffs.now) }
{
    let mut rest = diffs;
    'diffs: while let Some((first, more)) = rest.split_first() {
        if first.start_serial() == serial {
            return rest;
        }
        rest = more;
    }
    rest
}

/// How many of the oldest differences go where one more leads to this serial: those up to the one that starts there.
fn count_outdated(diffs: &[Arc<InMemoryZoneDiff>], serial: Serial) -> usize
    ensures within { result ≤ length diffs.now }
    ensures left { drop result (map arc_value diffs.now)
        ≡ (if has_start serial (map arc_value diffs.now) then after_serial serial (map arc_value diffs.now)
        else map arc_value diffs.now) }
{
    match starting_at(diffs, serial).split_first() {
        Some((_, newer)) => diffs.len() - newer.len(),
        None => 0,
    }
}

/// Takes so many of the oldest differences away.
fn forget(diffs: &mut Vec<Arc<InMemoryZoneDiff>>, count: usize)
    requires { count ≤ length diffs.old.items }
    ensures { diffs.new.items ≡ drop count diffs.old.items }
{
    drop(diffs.drain(..count));
}
