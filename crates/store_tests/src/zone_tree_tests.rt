// The zones of a server by class and apex, and the one that a name lies in.

use crate::common::{APEX, is, name, says};
use dns_name::{NameRef, StoredName};
use dns_numbers::Class;
use std::alloc::Global;
use std::process::Abort;
use zone_file::{AtApex, InsertZoneError, ZoneTree};
use zone_types::ZoneTreeModificationError;

const A: &[u8] = b"\x01a\x07example\x00";

const B: &[u8] = b"\x01b\x07example\x00";

const BELOW_A: &[u8] = b"\x01x\x01a\x07example\x00";

const BELOW_B: &[u8] = b"\x01x\x01b\x07example\x00";

/// A zone that is only a class, an apex, and a number to know it by.
#[derive(Drop)]
struct Marked {
    class: Class,
    apex: StoredName,
    mark: u8,
}

impl AtApex for Marked {
    ghost class_of = { λ z. z.class };

    ghost apex_of = { λ z. z.apex };

    fn class(&self) -> Class {
        self.class
    }

    fn apex_name(&self) -> &StoredName {
        &self.apex
    }
}

/// The class CH (RFC 1035, 3.2.4).
fn chaos() -> Class {
    Class::from_int(3)
}

/// The number of the zone that is handed back where one stands already.
fn mark_back(put: Result<(), InsertZoneError<Marked>>) -> u8 {
    match put {
        Ok(()) => 0,
        Err(InsertZoneError::ZoneExists(zone)) => {
            let mark = zone.mark;
            drop(zone);
            mark
        }
        Err(InsertZoneError::Memory(zone)) => {
            drop(zone);
            0
        }
    }
}

fn make_zone<R: Abort>(rt: &R, alloc: Global, class: Class, apex: &[u8], mark: u8) -> Marked {
    let apex = name(rt, alloc, apex);
    Marked { class, apex, mark }
}

fn put<R: Abort>(
    rt: &R,
    alloc: Global,
    tree: &mut ZoneTree<Marked>,
    class: Class,
    apex: &[u8],
    mark: u8,
) {
    let zone = make_zone(rt, alloc, class, apex, mark);
    tree.insert_zone(zone).expect(rt, "a new zone");
}

/// example., a.example. and b.example. of class IN, as 1, 2 and 3.
fn three_zones<R: Abort>(rt: &R, alloc: Global) -> ZoneTree<Marked> {
    let mut tree = ZoneTree::new(alloc);
    put(rt, alloc, &mut tree, Class::IN, B, 3);
    put(rt, alloc, &mut tree, Class::IN, APEX, 1);
    put(rt, alloc, &mut tree, Class::IN, A, 2);
    tree
}

fn mark_of(zone: Option<&Marked>) -> Option<u8> {
    match zone {
        Some(zone) => Some(zone.mark),
        None => None,
    }
}

/// The zone that a name lies in.
fn found<R: Abort>(rt: &R, tree: &ZoneTree<Marked>, class: Class, qname: &[u8]) -> Option<u8> {
    let qname = NameRef::from_octets(qname).expect(rt, "a name");
    mark_of(tree.find_zone(&qname, class))
}

/// The zone of an apex.
fn kept<R: Abort>(rt: &R, tree: &ZoneTree<Marked>, class: Class, apex: &[u8]) -> Option<u8> {
    let apex = NameRef::from_octets(apex).expect(rt, "a name");
    mark_of(tree.get_zone(&apex, class))
}

#[test]
fn a_name_lies_in_the_nearest_zone(rt: HostRuntime) {
    let alloc = rt.alloc();
    let tree = three_zones(&rt, alloc);
    is(&rt, found(&rt, &tree, Class::IN, BELOW_A), Some(2));
    is(&rt, found(&rt, &tree, Class::IN, A), Some(2));
    is(&rt, found(&rt, &tree, Class::IN, BELOW_B), Some(3));
    let other = b"\x01x\x07example\x00";
    is(&rt, found(&rt, &tree, Class::IN, other), Some(1));
    let loud = b"\x01X\x01A\x07EXAMPLE\x00";
    is(&rt, found(&rt, &tree, Class::IN, loud), Some(2));
    is(&rt, found(&rt, &tree, Class::IN, b"\x03org\x00"), None);
    is(&rt, found(&rt, &tree, chaos(), BELOW_A), None);
    is(&rt, kept(&rt, &tree, Class::IN, BELOW_A), None);
    is(
        &rt,
        kept(&rt, &tree, Class::IN, b"\x01A\x07eXample\x00"),
        Some(2),
    );
    drop(tree);
}

#[test]
fn a_zone_taken_out_is_found_no_more(rt: HostRuntime) {
    let alloc = rt.alloc();
    let mut tree = three_zones(&rt, alloc);
    let loud = NameRef::from_octets(b"\x01A\x07Example\x00").expect(&rt, "a name");
    let removed = tree.remove_zone(&loud, Class::IN).expect(&rt, "a zone");
    is(&rt, removed.mark, 2);
    drop(removed);
    is(&rt, found(&rt, &tree, Class::IN, BELOW_A), Some(1));
    is(&rt, found(&rt, &tree, Class::IN, BELOW_B), Some(3));
    let none = ZoneTreeModificationError::ZoneDoesNotExist;
    let refused = tree.remove_zone(&loud, Class::IN);
    is(&rt, refused.err().expect(&rt, "a refusal"), none);
    is(&rt, found(&rt, &tree, Class::IN, BELOW_A), Some(1));
    drop(tree);
}

#[test]
fn a_zone_that_stands_is_not_replaced(rt: HostRuntime) {
    let alloc = rt.alloc();
    let mut tree = three_zones(&rt, alloc);
    let second = make_zone(&rt, alloc, Class::IN, b"\x07EXAMPLE\x00", 9);
    let back = mark_back(tree.insert_zone(second));
    is(&rt, back, 9);
    is(&rt, kept(&rt, &tree, Class::IN, APEX), Some(1));
    drop(tree);
}

#[test]
fn texts_of_refused_zones(rt: HostRuntime) {
    let alloc = rt.alloc();
    let stands: InsertZoneError<u8> = InsertZoneError::ZoneExists(1);
    says(&rt, alloc, &stands, "Zone already exists");
    let wants: InsertZoneError<u8> = InsertZoneError::Memory(1);
    says(&rt, alloc, &wants, "out of memory");
}

#[test]
fn classes_stand_beside_each_other(rt: HostRuntime) {
    let alloc = rt.alloc();
    let mut tree = ZoneTree::new(alloc);
    put(&rt, alloc, &mut tree, chaos(), APEX, 4);
    put(&rt, alloc, &mut tree, Class::IN, B, 3);
    put(&rt, alloc, &mut tree, Class::IN, A, 2);
    put(&rt, alloc, &mut tree, Class::IN, APEX, 1);
    is(&rt, kept(&rt, &tree, Class::IN, APEX), Some(1));
    is(&rt, kept(&rt, &tree, chaos(), APEX), Some(4));
    is(&rt, found(&rt, &tree, chaos(), BELOW_A), Some(4));
    let mut zones = tree.iter_zones();
    for wanted in [1, 2, 3, 4] {
        is(&rt, mark_of(zones.next()), Some(wanted));
    }
    let after = zones.next();
    assert!(rt; after.is_none());
    drop(zones);
    drop(tree);
}
