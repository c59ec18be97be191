//! Sinks: where octets go.
ghost use Rattle.std.specs.Prelude.{◌≡◌, ◌≢◌, ◌<◌, ◌≤◌, ◌++◌, [], min, length, take, option_map, IfOk, IsErr, OnOk, OnErr, IsTrue, ℕ};
ghost use Rattle.std.specs.Io.KnownBytes.{WriteAppends};
ghost use Rattle.zone_devices.specs.Calls.{Rose};
ghost use Rattle.zone_devices.specs.Calls.{no_calls, fails_next, after_call, after_fault};
ghost use Rattle.zone_devices.specs.Streams.{with_more};

use crate::failures::Failures;
use crate::sources::Failed;
use std::alloc::Global;
use std::io::Write;
use std::marker::Model;

/// Octets that go out.
pub trait Sink {
    ghost use Rattle.std.specs.Prelude.{ℕ, Option, List};

    /// The octets that were taken, where they are told.
    ghost taken: { Self → Option (List ℕ) };

    /// How often a call failed.
    ghost faults: { Self → ℕ };

    /// Takes some octets from the front of a buffer that isn't empty, at least one, and says how many.
    fn write(&mut self, buf: &[u8]) -> Result<usize, Failed>
        requires { 0 < length buf.now }
        ensures some { IfOk result (λ n. 0 < n) }
        ensures within { IfOk result (λ n. n ≤ length buf.now) }
        ensures octets { IfOk result (λ n. taken self.new ≡ with_more (take n buf.now) (taken self.old)) }
        ensures err { OnErr result (taken self.new ≡ taken self.old) }
        ensures failed { OnErr result (Rose (faults self.old) (faults self.new)) }
        ensures steady { OnOk result (faults self.new ≡ faults self.old) };
}

/// A buffer as a sink whose calls can be made to fail.
#[derive(Drop)]
pub struct MemorySink {
    octets: Vec<u8>,
    most: usize,
    failures: Failures,
}

impl Model for MemorySink {
    ghost use Rattle.std.specs.Prelude.{◌<◌};
    ghost use Rattle.zone_devices.specs.Streams.{Taken};

    ghost Value = { Taken };

    ghost view = { λ s. record { octets = s.octets.items; most = s.most; calls = s.failures } };

    ghost invariant = { λ s. 0 < s.most };
}

impl MemorySink {
    /// An empty sink, which takes at most so many octets in a call; the calls of the list, numbered from 1, fail.
    pub fn new(alloc: Global, most: usize, failing: Vec<u64>) -> MemorySink
        requires { 0 < most }
        ensures { result ≡ record { octets = []; most = most; calls = no_calls failing.items } }
    {
        MemorySink {
            octets: Vec::new(alloc),
            most,
            failures: Failures::new(failing),
        }
    }

    /// What it took.
    pub fn as_slice(&self) -> &[u8]
        ensures { result.now ≡ self.now.octets }
    {
        self.octets.as_slice()
    }
}

impl Sink for MemorySink {
    ghost use Rattle.std.specs.Prelude.{Some};

    ghost taken = { λ s. Some s.octets };

    ghost faults = { λ s. s.calls.faults };

    /// Want of memory is a fault too.
    fn write(&mut self, buf: &[u8]) -> Result<usize, Failed>
        requires { 0 < length buf.now }
        ensures fails { IsTrue (fails_next self.old.calls) → IsErr result }
        ensures calls { OnOk result (self.new.calls ≡ after_call self.old.calls) }
        ensures fault { OnErr result (self.new.calls ≡ after_fault self.old.calls) }
        ensures some { IfOk result (λ n. 0 < n) }
        ensures count { IfOk result (λ n. n ≡ min (length buf.now) self.old.most) }
        ensures octets { IfOk result (λ n. self.new.octets ≡ self.old.octets ++ take n buf.now) }
        ensures err { OnErr result (self.new.octets ≡ self.old.octets) }
        ensures most { self.new.most ≡ self.old.most }
    {
        if self.failures.is_next_failing() {
            return Err(Failed);
        }
        let count = buf.len().min(self.most);
        if self.octets.extend_from_slice(&buf[..count]).is_err() {
            self.failures.count_fault();
            return Err(Failed);
        }
        Ok(count)
    }
}

/// A writer as a sink. Each call is one write of the writer, which holds what was taken, where it tells that; each error is counted,
/// and so is a write that takes nothing.
#[derive(Drop)]
pub struct StdSink<W: Write + Drop> {
    writer: W,
    faults: u64,
}

impl<W: Write + Drop> StdSink<W> {
    /// A sink over this writer, as over standard output.
    pub fn new(writer: W) -> StdSink<W>
        ensures { ⟦<StdSink<W> as Sink>⟧.faults result ≡ 0 }
    {
        StdSink { writer, faults: 0 }
    }
}

impl<W: Write + Drop> Sink for StdSink<W> {
    ghost use Rattle.std.specs.Prelude.{None};

    ghost taken = { λ s. None };

    ghost faults = { λ s. s.faults };

    fn write(&mut self, buf: &[u8]) -> Result<usize, Failed>
        requires { 0 < length buf.now }
        ensures some { IfOk result (λ n. 0 < n) }
        ensures within { IfOk result (λ n. n ≤ length buf.now) }
        ensures held { WriteAppends (W.contents self.old.writer) (W.contents self.new.writer) result buf.now }
        ensures failed { OnErr result (Rose self.old.faults self.new.faults) }
        ensures steady { OnOk result (self.new.faults ≡ self.old.faults) }
    {
        match self.writer.write(buf) {
            Ok(count) if count > 0 => Ok(count),
            _ => {
                self.faults = self.faults.saturating_add(1);
                Err(Failed)
            }
        }
    }
}

/// Writes all of a buffer. After a fault some first part of it was taken.
pub fn write_all<K: Sink>(out: &mut K, octets: &[u8]) -> Result<(), Failed>
    ensures ok { OnOk result (K.taken out.new ≡ with_more octets.now (K.taken out.old)) }
    ensures part { (n : ℕ) × (K.taken out.new ≡ with_more (take n octets.now) (K.taken out.old)) }
    ensures failed { OnErr result (Rose (K.faults out.old) (K.faults out.new)) }
    ensures steady { OnOk result (K.faults out.new ≡ K.faults out.old) }
{
    let mut written = 0;
    while written < octets.len() {
        let rest = &octets[written..];
        let count = out.write(rest)?;
        written += count;
    }
    Ok(())
}
