// Readers on threads of their own, beside the publishing end.

use crate::common::{Entry, commit_next, held_number, is, opened};
use published::{AnyReader, Numbered, Publisher, Reader, open_locked};
use std::alloc::{AllocError, Global};
use std::sync::{Mutex, Wait};
use std::thread::{Threads, join_mut, map_vec};

const FIRST: u64 = 7;

const COMMITS: u64 = 50;

/// So often a reader reads at most.
const READS: usize = 100_000;

/// Reads until the last commit came, and says whether numbers only rose and each entry was whole.
fn rises(reader: Reader<Entry>) -> bool {
    let mut reader = reader;
    let mut before = 0;
    for _ in 0..READS {
        let Ok(entry) = reader.read() else {
            return false;
        };
        let now = entry.number();
        if now < before || !entry.is_whole() {
            return false;
        }
        if now == FIRST + COMMITS {
            break;
        }
        before = now;
    }
    true
}

/// The other readers.
fn others(
    alloc: Global,
    reader: &mut Reader<Entry>,
    count: usize,
) -> Result<Vec<Reader<Entry>>, AllocError> {
    let mut others = Vec::new(alloc);
    for _ in 0..count {
        if let Ok(other) = reader.another() {
            others.push(other)?;
        }
    }
    Ok(others)
}

/// How many readers saw numbers that only rise, each on a thread of its own.
fn serve<R: Threads + Sync>(rt: &R, readers: Option<Vec<Reader<Entry>>>) -> usize {
    let Some(readers) = readers else {
        return 0;
    };
    match map_vec(rt, readers, &|reader| rises(reader)) {
        Ok(each) => each.iter().filter(|rose| **rose).count(),
        Err(_) => 0,
    }
}

fn commit_often<R: Wait>(rt: &R, alloc: Global, publisher: &mut Publisher<Entry>) -> bool {
    for _ in 0..COMMITS {
        if commit_next(rt, alloc, publisher).is_err() {
            return false;
        }
    }
    true
}

/// How many readers saw numbers that only rise, whether all was committed, the last number, and how many other readers there may be afterwards.
fn beside<R: Threads + Wait + Sync>(
    rt: &R,
    alloc: Global,
    count: usize,
) -> Result<(usize, bool, u64, usize), AllocError> {
    let (mut reader, mut publisher) = opened(rt, alloc, FIRST, 17)?;
    let mut readers = others(alloc, &mut reader, count).ok();
    let (rose, committed) = join_mut(
        rt,
        &mut || serve(rt, readers.take()),
        &mut || commit_often(rt, alloc, &mut publisher),
    );
    let refreshed = reader.refresh();
    publisher.close(rt);
    refreshed?;
    Ok((
        rose,
        committed,
        held_number(&reader),
        others(alloc, &mut reader, 17)?.len(),
    ))
}

#[test]
fn one_reader_beside_commits(rt: HostRuntime) {
    let seen = beside(&rt, rt.alloc(), 1).expect(&rt, "memory");
    is(&rt, seen, (1, true, FIRST + COMMITS, 16));
}

#[test]
fn sixteen_readers_beside_commits(rt: HostRuntime) {
    let seen = beside(&rt, rt.alloc(), 16).expect(&rt, "memory");
    is(&rt, seen, (16, true, FIRST + COMMITS, 16));
}

fn read_under<R: Wait>(rt: &R, reader: &Mutex<AnyReader<Entry>>) -> Option<u64> {
    match reader.lock(rt).read() {
        Ok(entry) => Some(entry.number()),
        Err(_) => None,
    }
}

fn rises_under<R: Wait>(rt: &R, reader: &Mutex<AnyReader<Entry>>) -> bool {
    let mut before = 0;
    for _ in 0..1000 {
        let Some(now) = read_under(rt, reader) else {
            return false;
        };
        if now < before {
            return false;
        }
        before = now;
    }
    true
}

fn under_a_lock<R: Threads + Wait + Sync>(
    rt: &R,
    alloc: Global,
) -> Result<(bool, bool, Option<u64>), AllocError> {
    let (reader, mut publisher) = open_locked(alloc, Entry::new(alloc, FIRST)?, 1)?;
    let reader = Mutex::new(reader);
    let (rose, committed) = join_mut(
        rt,
        &mut || rises_under(rt, &reader),
        &mut || commit_often(rt, alloc, &mut publisher),
    );
    let last = read_under(rt, &reader);
    publisher.close(rt);
    Ok((rose, committed, last))
}

#[test]
fn a_reader_under_a_lock(rt: HostRuntime) {
    let seen = under_a_lock(&rt, rt.alloc()).expect(&rt, "memory");
    is(&rt, seen, (true, true, Some(FIRST + COMMITS)));
}
