//! Sources: where octets come from.
ghost use Rattle.std.specs.Prelude.{◌≡◌, ◌≢◌, ◌<◌, ◌≤◌, ◌++◌, ◌↔◌, [], min, length, take, option_map, IfOk, IfErr, IfSome, IsErr, OnOk, OnErr, IsTrue};
ghost use Rattle.std.specs.Io.KnownBytes.{ReadConsumes};
ghost use Rattle.zone_devices.specs.Calls.{Rose};
ghost use Rattle.zone_devices.specs.Calls.{no_calls, fails_next, after_call};
ghost use Rattle.zone_devices.specs.Streams.{with_first};

use crate::failures::Failures;
use std::alloc::{AllocError, Global};
use std::io::Read;
use std::marker::Model;

/// A call of a source or a sink that failed; its count of faults rose.
#[derive(Clone, Copy, Debug, PartialEq, Eq)]
pub struct Failed;

/// Octets that come in.
pub trait Source {
    ghost use Rattle.std.specs.Prelude.{ℕ, Option, List};

    /// The octets that are left, where they are told.
    ghost remaining: { Self → Option (List ℕ) };

    /// How often a call failed.
    ghost faults: { Self → ℕ };

    /// Reads some octets into the front of a buffer that isn't empty, and says how many; 0 where none is left.
    fn read(&mut self, buf: &mut [u8]) -> Result<usize, Failed>
        requires { 0 < length buf.old }
        ensures within { IfOk result (λ n. n ≤ length buf.old) }
        // What was read, and then what is left, is what was left before.
        ensures octets { IfOk result (λ n. with_first (take n buf.new) (remaining self.new) ≡ remaining self.old) }
        ensures end { result ≡ Ok 0 → IfSome (remaining self.old) (λ left. left ≡ []) }
        ensures err { OnErr result (remaining self.new ≡ remaining self.old) }
        ensures failed { OnErr result (Rose (faults self.old) (faults self.new)) }
        ensures steady { OnOk result (faults self.new ≡ faults self.old) };
}

/// The octets of a buffer, as a source whose calls can be made to fail.
#[derive(Drop)]
pub struct MemorySource {
    octets: Vec<u8>,
    place: usize,
    failures: Failures,
}

impl Model for MemorySource {
    ghost use Rattle.std.specs.Prelude.{◌≤◌, length, drop};
    ghost use Rattle.zone_devices.specs.Streams.{Left};

    ghost Value = { Left };

    ghost view = { λ s. record { octets = drop s.place s.octets.items; calls = s.failures } };

    ghost invariant = { λ s. s.place ≤ length s.octets.items };
}

impl MemorySource {
    /// A source of these octets; the calls of the list, numbered from 1, fail and read nothing.
    pub fn new(octets: Vec<u8>, failing: Vec<u64>) -> MemorySource
        ensures { result ≡ record { octets = octets.items; calls = no_calls failing.items } }
    {
        MemorySource {
            octets,
            place: 0,
            failures: Failures::new(failing),
        }
    }
}

impl Source for MemorySource {
    ghost use Rattle.std.specs.Prelude.{Some};

    ghost remaining = { λ s. Some s.octets };

    ghost faults = { λ s. s.calls.faults };

    /// Reads as much as there is and as the buffer holds.
    fn read(&mut self, buf: &mut [u8]) -> Result<usize, Failed>
        ensures fails { IsErr result ↔ IsTrue (fails_next self.old.calls) }
        ensures calls { self.new.calls ≡ after_call self.old.calls }
        ensures count { IfOk result (λ n. n ≡ min (length self.old.octets) (length buf.old)) }
        ensures octets { IfOk result (λ n. take n buf.new ++ self.new.octets ≡ self.old.octets) }
        ensures err { OnErr result (self.new.octets ≡ self.old.octets) }
    {
        if self.failures.is_next_failing() {
            return Err(Failed);
        }
        let left = self.octets.len() - self.place;
        let count = left.min(buf.len());
        let end = self.place + count;
        buf[..count].copy_from_slice(&self.octets[self.place..end]);
        self.place = end;
        Ok(count)
    }
}

/// A reader as a source. Each call is one read of the reader; each error is counted.
#[derive(Drop)]
pub struct StdSource<R: Read + Drop> {
    reader: R,
    faults: u64,
}

impl<R: Read + Drop> StdSource<R> {
    /// A source over this reader, as over standard input.
    pub fn new(reader: R) -> StdSource<R>
        ensures { ⟦<StdSource<R> as Source>⟧.faults result ≡ 0 }
    {
        StdSource { reader, faults: 0 }
    }
}

impl<R: Read + Drop> Source for StdSource<R> {
    ghost use Rattle.std.specs.Prelude.{None};

    ghost remaining = { λ s. None };

    ghost faults = { λ s. s.faults };

    fn read(&mut self, buf: &mut [u8]) -> Result<usize, Failed>
        requires { 0 < length buf.old }
        ensures within { IfOk result (λ n. n ≤ length buf.old) }
        ensures given { ReadConsumes (R.remaining self.old.reader) (R.remaining self.new.reader) result buf.new }
        ensures failed { OnErr result (Rose self.old.faults self.new.faults) }
        ensures steady { OnOk result (self.new.faults ≡ self.old.faults) }
    {
        match self.reader.read(buf) {
            Ok(count) => Ok(count),
            Err(_) => {
                self.faults = self.faults.saturating_add(1);
                Err(Failed)
            }
        }
    }
}
