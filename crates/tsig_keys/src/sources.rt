// Where the octets of new keys come from.
ghost use Rattle.std.specs.Prelude.{◌≡◌, ◌≤◌, ◌++◌, ◌↔◌, [], false, length, IsOk, OnOk, OnErr};
ghost use Rattle.zone_devices.specs.Calls.{no_calls, fails_next, after_call, after_fault};
ghost use Rattle.tsig_keys.specs.KeySources.{Rose};

use crate::errors::FillError;
use rand_core::Rng;
use std::marker::Model;
use zone_devices::failures::Failures;

/// A stream of octets that keys are made of.
pub trait KeySource {
    ghost use Rattle.std.specs.Prelude.{ℕ, List};

    /// The octets stand next in the first state's stream, and what is left after them is the second state's.
    ghost Gives: { Self → List ℕ → Self → Type 0 };

    /// How often a call failed.
    ghost faults: { Self → ℕ };

    /// Fills the buffer with the next octets of the stream. A call that fails takes none of them.
    fn fill(&mut self, buf: &mut [u8]) -> Result<(), FillError>
        ensures given { OnOk result (Gives self.old buf.new self.new) }
        ensures steady { OnOk result (faults self.new ≡ faults self.old) }
        ensures kept { OnErr result (Gives self.old [] self.new) }
        ensures failed { OnErr result (Rose (faults self.old) (faults self.new)) };
}

/// A random number generator as a source that never fails. That keys are hard to guess is up to the generator.
#[derive(Drop)]
pub struct FromRng<R: Rng + Drop> {
    rng: R,
}

impl<R: Rng + Drop> Model for FromRng<R> {
    ghost Value = { R };

    ghost view = { λ s. s.rng };
}

impl<R: Rng + Drop> FromRng<R> {
    /// The source of what this generator will answer.
    pub fn new(rng: R) -> FromRng<R>
        ensures { result ≡ rng }
    {
        FromRng { rng }
    }
}

impl<R: Rng + Drop> KeySource for FromRng<R> {
    ghost use Rattle.std.specs.Prelude.{◌≡◌, length};
    ghost use Rattle.rand_core.specs.Stream.{fill_bytes};

    ghost Gives = { λ a octets b. (octets, R.stream b) ≡ fill_bytes (length octets) (R.stream a) };

    ghost faults = { λ _. 0 };

    /// Always succeeds, since the count of faults stays 0.
    fn fill(&mut self, buf: &mut [u8]) -> Result<(), FillError> {
        self.rng.fill_bytes(buf);
        Ok(())
    }
}

/// The octets of a list as a source whose calls can be made to fail. A call fails too where fewer octets are left than are asked for.
#[derive(Drop)]
pub struct MemoryKeySource {
    octets: Vec<u8>,
    place: usize,
    failures: Failures,
}

impl Model for MemoryKeySource {
    ghost use Rattle.std.specs.Prelude.{◌≤◌, length, drop};
    ghost use Rattle.tsig_keys.specs.KeySources.{OctetsLeft};

    ghost Value = { OctetsLeft };

    ghost view = { λ s. record { left = drop s.place s.octets.items; calls = s.failures } };

    ghost invariant = { λ s. s.place ≤ length s.octets.items };
}

impl MemoryKeySource {
    /// The source of these octets; the calls of the list, numbered from 1, fail.
    pub fn new(octets: Vec<u8>, failing: Vec<u64>) -> MemoryKeySource
        ensures { result ≡ record { left = octets.items; calls = no_calls failing.items } }
    {
        MemoryKeySource {
            octets,
            place: 0,
            failures: Failures::new(failing),
        }
    }
}

impl KeySource for MemoryKeySource {
    ghost use Rattle.std.specs.Prelude.{◌≡◌, ◌++◌};

    ghost Gives = { λ a octets b. a.left ≡ octets ++ b.left };

    ghost faults = { λ s. s.calls.faults };

    /// Fails exactly where the call is one of the list, or fewer octets are left than the buffer has; the buffer then stays too.
    fn fill(&mut self, buf: &mut [u8]) -> Result<(), FillError>
        ensures exact { IsOk result ↔ ((fails_next self.old.calls ≡ false) × (length buf.old ≤ length self.old.left)) }
        ensures given { OnOk result (self.old.left ≡ buf.new ++ self.new.left) }
        ensures called { OnOk result (self.new.calls ≡ after_call self.old.calls) }
        ensures steady { OnOk result (self.new.calls.faults ≡ self.old.calls.faults) }
        ensures kept { OnErr result (self.new.left ≡ self.old.left) }
        ensures untouched { OnErr result (buf.new ≡ buf.old) }
        ensures fault { OnErr result (self.new.calls ≡ after_fault self.old.calls) }
        ensures failed { OnErr result (Rose self.old.calls.faults self.new.calls.faults) }
    {
        if self.failures.is_next_failing() {
            return Err(FillError);
        }
        if self.octets.len() - self.place < buf.len() {
            self.failures.count_fault();
            return Err(FillError);
        }
        let end = self.place + buf.len();
        buf.copy_from_slice(&self.octets[self.place..end]);
        self.place = end;
        Ok(())
    }
}
