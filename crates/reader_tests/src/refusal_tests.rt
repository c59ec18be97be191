// What a refused allocation leaves: tools/refused-memory refuses each in turn.

use crate::common::{Entry, commit_next, held_number, is, opened, read_number};
use published::{Numbered, ReaderError};

#[test]
fn a_commit_is_whole_or_nothing_in_want_of_memory(rt: HostRuntime) {
    let alloc = rt.alloc();
    let (mut reader, mut publisher) = opened(&rt, alloc, 7, 1).expect(&rt, "memory");
    let is_made = commit_next(&rt, alloc, &mut publisher).is_ok();
    let now = 7 + u64::from(is_made);
    is(&rt, publisher.current().number(), now);
    let found = read_number(&mut reader);
    is(&rt, found.is_none() || found == Some(now), true);
    let is_made = commit_next(&rt, alloc, &mut publisher).is_ok();
    let now = now + u64::from(is_made);
    is(&rt, publisher.current().number(), now);
    let found = read_number(&mut reader);
    is(&rt, found.is_none() || found == Some(now), true);
    publisher.close(&rt);
    is(&rt, reader.refused(), 0);
    drop(reader);
}

#[test]
fn a_reader_keeps_what_it_holds_in_want_of_memory(rt: HostRuntime) {
    let alloc = rt.alloc();
    let (mut reader, mut publisher) = opened(&rt, alloc, 7, 1).expect(&rt, "memory");
    commit_next(&rt, alloc, &mut publisher).expect(&rt, "memory");
    let is_newer = reader.refresh().is_ok();
    is(&rt, held_number(&reader), 7 + u64::from(is_newer));
    is(&rt, reader.held().is_whole(), true);
    let before = held_number(&reader);
    let found = read_number(&mut reader);
    let held = held_number(&reader);
    is(&rt, found == Some(8) || found.is_none(), true);
    is(&rt, held == 8 || found.is_none() && held == before, true);
    publisher.close(&rt);
    is(&rt, reader.refused(), 0);
    drop(reader);
}

#[test]
fn a_reader_learns_all_or_nothing_in_want_of_memory(rt: HostRuntime) {
    let alloc = rt.alloc();
    let (mut reader, mut publisher) = opened(&rt, alloc, 7, 1).expect(&rt, "memory");
    commit_next(&rt, alloc, &mut publisher).expect(&rt, "memory");
    let receipt = publisher.receipt();
    publisher.close(&rt);
    let mut receipt = receipt.expect(&rt, "memory");
    let is_learnt = reader.learn(&mut receipt).is_ok();
    is(&rt, held_number(&reader), 7 + u64::from(is_learnt));
    is(&rt, receipt.entry().number(), 8);
    drop(receipt);
    drop(reader);
}

#[test]
fn another_reader_or_none_in_want_of_memory(rt: HostRuntime) {
    let alloc = rt.alloc();
    let (mut reader, publisher) = opened(&rt, alloc, 7, 2).expect(&rt, "memory");
    let other = reader.another();
    is(
        &rt,
        other
            .as_ref()
            .err()
            .is_none_or(|refused| *refused == ReaderError::Memory),
        true,
    );
    is(&rt, (held_number(&reader), reader.refused()), (7, 0));
    publisher.close(&rt);
    drop(other);
    drop(reader);
}

#[test]
fn a_history_opens_or_not_in_want_of_memory(rt: HostRuntime) {
    let alloc = rt.alloc();
    let Ok((reader, publisher)) = opened(&rt, alloc, 7, 17) else {
        return;
    };
    is(
        &rt,
        (held_number(&reader), publisher.current().number()),
        (7, 7),
    );
    publisher.close(&rt);
    drop(reader);
}
