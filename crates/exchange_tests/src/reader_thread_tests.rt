//! Readers of the secondary's zone on threads of their own, before the transfer that writes it and after.

use crate::common::is;
use std::alloc::Global;
use std::process::Abort;
use std::sync::Wait;
use std::sync::atomic::{AtomicBool, AtomicU64, Ordering};
use std::thread::{Threads, yield_now};
use zone_sync::{Gate, LoopLink, MemorySink, MemorySource, Status, XfrMode, run_gated};

/// A script of a small zone: an SOA of serial 1, an NS record, and two addresses.
const SCRIPT: &[u8] = b"zone 076578616d706c6500 1\n\
key 036b657900 hmac-sha256 000102 - -\n\
at 1000 1000\n\
p 076578616d706c65000006000100000e10001600000000000100000000000000000000000000000000\n\
p 076578616d706c65000002000100000e10000c026e73076578616d706c6500\n\
p 026e73076578616d706c65000001000100000e100004c0000201\n\
p 026e73076578616d706c65000001000100000e100004c0000202\n";

/// What is reported of a good transfer of that zone, before the lines of its readers.
const REPORT: &[u8] = b"updated 1\n\
rr 0 076578616d706c65000002000100000e10000c026e73076578616d706c6500\n\
rr 0 076578616d706c65000006000100000e10001600000000000100000000000000000000000000000000\n\
rr 0 026e73076578616d706c65000001000100000e100004c0000201\n\
rr 0 026e73076578616d706c65000001000100000e100004c0000202\n";

/// So many turns a wait takes at most.
const TURNS: u64 = 10_000_000;

/// Two readers go on in turn, so that neither can end before the other began: reader 1 reads first once reader 2 asked for its second read, which comes once
/// reader 1 asked for its own.
#[derive(Drop)]
struct TurnGate {
    first: AtomicU64,
    second: AtomicU64,
    transfers: AtomicU64,
    failed: AtomicBool,
}

impl TurnGate {
    fn new() -> TurnGate {
        TurnGate {
            first: AtomicU64::new(0),
            second: AtomicU64::new(0),
            transfers: AtomicU64::new(0),
            failed: AtomicBool::new(false),
        }
    }

    /// Waits until this was counted, or notes that it never was.
    fn hold(&self, count: &AtomicU64, least: u64) {
        for _ in 0..TURNS {
            if count.load(Ordering::SeqCst) >= least {
                return;
            }
            yield_now();
        }
        self.failed.store(true, Ordering::SeqCst);
    }
}

impl Gate for TurnGate {
    fn before_read(&self, reader: u64) {
        if reader == 1 {
            if self.first.fetch_add(1, Ordering::SeqCst) == 0 {
                self.hold(&self.second, 2);
            }
        } else if self.second.fetch_add(1, Ordering::SeqCst) == 1 {
            self.hold(&self.first, 2);
        }
    }

    fn before_transfer(&self) {
        self.transfers.fetch_add(1, Ordering::SeqCst);
    }
}

/// What `axfr` with so many readers writes of the script, with a gate, and its status.
fn written<R: Abort + Threads + Wait + Sync, G: Gate + Sync>(
    rt: &R,
    alloc: Global,
    gate: &G,
    readers: u64,
) -> (Vec<u8>, Status) {
    let script = SCRIPT.to_vec(alloc).expect(rt, "memory");
    let mut src = MemorySource::new(script, Vec::new(alloc));
    let mut out = MemorySink::new(alloc, 4096, Vec::new(alloc));
    let mut link = LoopLink::new(alloc);
    let status = run_gated(
        rt,
        alloc,
        gate,
        XfrMode::Axfr,
        readers,
        &mut src,
        &mut out,
        &mut link,
    );
    drop(link);
    drop(src);
    let octets = out.as_slice().to_vec(alloc).expect(rt, "memory");
    drop(out);
    (octets, status)
}

/// Both readers read at one time, and no transfer comes before the first read of either: both begin with version 0.
#[test]
fn two_readers_read_at_one_time(rt: HostRuntime) {
    let alloc = rt.alloc();
    let gate = TurnGate::new();
    let (octets, status) = written(&rt, alloc, &gate, 2);
    let failed = gate.failed.load(Ordering::SeqCst);
    let asked = [
        gate.first.load(Ordering::SeqCst),
        gate.second.load(Ordering::SeqCst),
        gate.transfers.load(Ordering::SeqCst),
    ];
    is(&rt, failed, false);
    is(&rt, status, Status::Done);
    let mut wanted = REPORT.to_vec(alloc).expect(&rt, "memory");
    let lines = b"reader 1 0 1\nreader 2 0 1\n";
    wanted.extend_from_slice(lines).expect(&rt, "memory");
    is(&rt, octets, wanted);
    // (64 reads on its thread and one after the transfer)
    is(&rt, asked, [65, 65, 1]);
}
