// A difference built of sets, told by index and by key, and what is refused.

use crate::common::{APEX, HOST, changes_the_ttl, is, name, soa_set, three};
use dns_numbers::Serial;
use std::alloc::Global;
use std::process::Abort;
use zone_types::{EmptyZoneDiff, InMemoryZoneDiffBuilder, SharedRrset, ZoneDiff, ZoneDiffError};

/// Says that a set comes, or else that it goes.
fn put<R: Abort>(
    rt: &R,
    alloc: Global,
    diff: &mut InMemoryZoneDiffBuilder,
    comes: bool,
    owner: &[u8],
    set: SharedRrset,
) {
    let rtype = set.as_rrset().rtype();
    let owner = name(rt, alloc, owner);
    let put = if comes {
        diff.add(owner, rtype, set)
    } else {
        diff.remove(owner, rtype, set)
    };
    put.expect(rt, "memory");
}

#[test]
fn three_addresses_change_their_ttl(rt: HostRuntime) {
    let alloc = rt.alloc();
    let mut built = InMemoryZoneDiffBuilder::new(alloc);
    put(&rt, alloc, &mut built, false, HOST, three(&rt, alloc, 3600));
    put(&rt, alloc, &mut built, false, APEX, soa_set(&rt, alloc, 1));
    let upper = b"\x01T\x07Example\x00";
    put(&rt, alloc, &mut built, true, upper, three(&rt, alloc, 60));
    put(&rt, alloc, &mut built, true, APEX, soa_set(&rt, alloc, 2));
    let diff = built.build().expect(&rt, "a difference");
    changes_the_ttl(&rt, alloc, &diff);
    let copy = diff.clone().expect(&rt, "memory");
    is(&rt, copy.added_len(), 2);
    drop(copy);
    drop(diff);
}

#[test]
fn what_comes_and_goes_is_no_difference(rt: HostRuntime) {
    let alloc = rt.alloc();
    let mut built = InMemoryZoneDiffBuilder::new(alloc);
    put(&rt, alloc, &mut built, false, APEX, soa_set(&rt, alloc, 0));
    put(&rt, alloc, &mut built, true, HOST, three(&rt, alloc, 60));
    put(&rt, alloc, &mut built, false, HOST, three(&rt, alloc, 60));
    let half = soa_set(&rt, alloc, 0x8000_0000);
    put(&rt, alloc, &mut built, true, APEX, half);
    let diff = built.build().expect(&rt, "a difference");
    is(&rt, diff.added_len(), 1);
    is(&rt, diff.removed_len(), 1);
    drop(diff);
}

#[test]
fn refusals_in_order(rt: HostRuntime) {
    let alloc = rt.alloc();
    let empty = InMemoryZoneDiffBuilder::new(alloc).build();
    is(&rt, empty.err(), Some(ZoneDiffError::MissingStartSoa));
    let mut built = InMemoryZoneDiffBuilder::new(alloc);
    put(&rt, alloc, &mut built, false, APEX, soa_set(&rt, alloc, 7));
    let half = built.build();
    is(&rt, half.err(), Some(ZoneDiffError::MissingEndSoa));
    let mut built = InMemoryZoneDiffBuilder::new(alloc);
    put(&rt, alloc, &mut built, false, APEX, soa_set(&rt, alloc, 7));
    put(&rt, alloc, &mut built, true, APEX, soa_set(&rt, alloc, 6));
    let before = built.build();
    is(&rt, before.err(), Some(ZoneDiffError::InvalidSerialRange));
}

#[test]
fn the_empty_difference(rt: HostRuntime) {
    let diff = EmptyZoneDiff;
    is(&rt, diff.start_serial(), Serial::from(0));
    is(&rt, diff.end_serial(), Serial::from(0));
    is(&rt, diff.added_len(), 0);
    assert!(rt; diff.removed_at(0).is_none());
}
