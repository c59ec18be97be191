// Builders of zones by whole sets, aliases and cuts, and trees of the zones that they open.

use crate::common::{
    APEX, HOST, SERVER, add, address, aliases, count_records, is, name, says, server, set_of,
    signer, target, three,
};
use dns_name::{NameRef, StoredName};
use dns_numbers::{Class, Rtype, Ttl};
use dns_rdata::StoredRecord;
use std::alloc::{AllocError, Global};
use std::process::Abort;
use std::sync::Wait;
use zone_file::{Close, InsertCnameError, InsertCutError, InsertZoneError, ZoneBuilder, ZoneTree};
use zone_store::{CommitError, InsertError, ReadZone, ReadableZone, Zone, ZoneApex, ZoneStore};
use zone_types::{Rrset, SharedRr, SharedRrset};

const A: &[u8] = b"\x01a\x07example\x00";

const B: &[u8] = b"\x01b\x07example\x00";

const CUT: &[u8] = b"\x01c\x07example\x00";

const GLUE: &[u8] = b"\x02ns\x01c\x07example\x00";

const OUTSIDE: &[u8] = b"\x01a\x03com\x00";

/// A builder of the zone `example.` without records.
fn builder<R: Abort>(rt: &R, alloc: Global) -> ZoneBuilder {
    ZoneBuilder::new(alloc, name(rt, alloc, APEX), Class::IN)
}

/// The version that a zone opens with.
fn opened<R: Abort + Wait>(rt: &R, builder: ZoneBuilder) -> ReadZone {
    let zone = builder.build().expect(rt, "memory");
    let read = zone.read(rt).expect(rt, "memory");
    zone.close(rt);
    read
}

/// The TTL of a set and how many data it has, none where there is no set.
fn shown<R: Abort>(rt: &R, read: &ReadZone, owner: &[u8], rtype: Rtype) -> Option<(Ttl, usize)> {
    let owner = NameRef::from_octets(owner).expect(rt, "a name");
    let set = read.rrset_at(&owner, rtype)?;
    Some((set.ttl(), set.data().len()))
}

/// No address.
fn none<R: Abort>(rt: &R, alloc: Global) -> SharedRrset {
    let set = Rrset::new(alloc, Rtype::A, Ttl::from_int(60));
    set.into_shared(alloc).expect(rt, "memory")
}

/// What the insertion of a set gives.
fn put<R: Abort>(
    rt: &R,
    builder: &mut ZoneBuilder,
    owner: &[u8],
    set: SharedRrset,
) -> Result<(), InsertError> {
    let owner = NameRef::from_octets(owner).expect(rt, "a name");
    builder.insert_rrset(&owner, set)
}

/// How many RRsets a version has.
fn set_count(read: &ReadZone) -> usize {
    let mut count = 0_usize;
    for stop in read.iter_rrsets() {
        count = count.saturating_add(1);
        drop(stop);
    }
    count
}

#[test]
fn opens_with_rrsets(rt: HostRuntime) {
    let alloc = rt.alloc();
    let mut builder = builder(&rt, alloc);
    let put_three = put(&rt, &mut builder, HOST, three(&rt, alloc, 300));
    is(&rt, put_three, Ok(()));
    let put_none = put(&rt, &mut builder, HOST, none(&rt, alloc));
    is(&rt, put_none, Ok(()));
    let put_none = put(&rt, &mut builder, OUTSIDE, none(&rt, alloc));
    is(&rt, put_none, Ok(()));
    let outside = put(&rt, &mut builder, OUTSIDE, three(&rt, alloc, 300));
    is(&rt, outside, Err(InsertError::OutOfZone));
    let two = put(&rt, &mut builder, A, aliases(&rt, alloc, HOST, SERVER));
    is(&rt, two, Err(InsertError::InvalidData));
    let same = aliases(&rt, alloc, B, b"\x01B\x07EXAMPLE\x00");
    is(&rt, put(&rt, &mut builder, A, same), Ok(()));
    let read = opened(&rt, builder);
    let of_three = shown(&rt, &read, HOST, Rtype::A);
    is(&rt, of_three, Some((Ttl::from_int(300), 3)));
    let of_one = shown(&rt, &read, A, Rtype::CNAME);
    is(&rt, of_one, Some((Ttl::from_int(30), 1)));
    is(&rt, set_count(&read), 2);
    drop(read);
}

#[test]
fn a_later_rrset_takes_the_place(rt: HostRuntime) {
    let alloc = rt.alloc();
    let mut builder = builder(&rt, alloc);
    let first = put(&rt, &mut builder, HOST, three(&rt, alloc, 60));
    is(&rt, first, Ok(()));
    let later = set_of(&rt, alloc, address(&rt, alloc, HOST, 3600, 9));
    let later = put(&rt, &mut builder, b"\x01T\x07EXAMPLE\x00", later);
    is(&rt, later, Ok(()));
    let read = opened(&rt, builder);
    let only = read.first_rrset().expect(&rt, "a set");
    is(&rt, only.owner().as_slice(), HOST);
    is(&rt, only.rtype(), Rtype::A);
    is(&rt, only.ttl(), Ttl::from_int(3600));
    is(&rt, only.items().len(), 1);
    drop(only);
    is(&rt, set_count(&read), 1);
    drop(read);
}

/// What the insertion of an alias of t gives.
fn put_alias<R: Abort>(
    rt: &R,
    alloc: Global,
    builder: &mut ZoneBuilder,
    owner: &[u8],
    ttl: u32,
) -> Result<(), InsertCnameError> {
    let owner = NameRef::from_octets(owner).expect(rt, "a name");
    let alias = SharedRr::new(Ttl::from_int(ttl), target(rt, alloc, HOST));
    assert!(rt; alias.rtype() == Rtype::CNAME);
    builder.insert_cname(&owner, alias)
}

#[test]
fn opens_with_an_alias(rt: HostRuntime) {
    let alloc = rt.alloc();
    let mut builder = builder(&rt, alloc);
    is(&rt, put_alias(&rt, alloc, &mut builder, A, 60), Ok(()));
    is(&rt, put_alias(&rt, alloc, &mut builder, A, 3600), Ok(()));
    let at_apex = put_alias(&rt, alloc, &mut builder, b"\x07EXAMPLE\x00", 60);
    is(&rt, at_apex, Err(InsertCnameError::CnameAtApex));
    let outside = put_alias(&rt, alloc, &mut builder, OUTSIDE, 60);
    is(&rt, outside, Err(InsertCnameError::OutOfZone));
    let read = opened(&rt, builder);
    let alias = shown(&rt, &read, A, Rtype::CNAME);
    is(&rt, alias, Some((Ttl::from_int(3600), 1)));
    is(&rt, set_count(&read), 1);
    drop(read);
}

/// Addresses at ns.c, and outside the zone.
fn glue<R: Abort>(rt: &R, alloc: Global) -> Vec<StoredRecord> {
    let mut glue = Vec::new(alloc);
    let inside = address(rt, alloc, GLUE, 60, 5);
    glue.push(inside).expect(rt, "memory");
    let outside = address(rt, alloc, OUTSIDE, 60, 6);
    glue.push(outside).expect(rt, "memory");
    glue
}

/// What the insertion of a cut with NS ns.c, DS and glue gives.
fn put_cut<R: Abort>(
    rt: &R,
    alloc: Global,
    builder: &mut ZoneBuilder,
    owner: &[u8],
) -> Result<(), InsertCutError> {
    let name = NameRef::from_octets(owner).expect(rt, "a name");
    let ns = set_of(rt, alloc, server(rt, alloc, owner, 3600, GLUE));
    let ds = set_of(rt, alloc, signer(rt, alloc, owner));
    assert!(rt; ns.as_rrset().rtype() == Rtype::NS);
    assert!(rt; ds.as_rrset().rtype() == Rtype::DS);
    builder.insert_zone_cut(&name, ns, Some(ds), glue(rt, alloc))
}

#[test]
fn opens_with_a_cut(rt: HostRuntime) {
    let alloc = rt.alloc();
    let mut builder = builder(&rt, alloc);
    is(&rt, put_cut(&rt, alloc, &mut builder, CUT), Ok(()));
    let at_apex = put_cut(&rt, alloc, &mut builder, b"\x07EXAMPLE\x00");
    is(&rt, at_apex, Err(InsertCutError::ZoneCutAtApex));
    let outside = put_cut(&rt, alloc, &mut builder, OUTSIDE);
    is(&rt, outside, Err(InsertCutError::OutOfZone));
    let read = opened(&rt, builder);
    let mut stops = read.iter_rrsets();
    for (owner, rtype) in [(CUT, Rtype::NS), (CUT, Rtype::DS), (GLUE, Rtype::A)] {
        let stop = stops.next().expect(&rt, "a set");
        is(&rt, stop.owner().as_slice(), owner);
        is(&rt, stop.rtype(), rtype);
        is(&rt, stop.below_cut(), true);
        drop(stop);
    }
    let after = stops.next();
    assert!(rt; after.is_none());
    drop(after);
    drop(stops);
    drop(read);
}

#[test]
fn refers_at_a_cut(rt: HostRuntime) {
    let alloc = rt.alloc();
    let mut builder = builder(&rt, alloc);
    is(&rt, put_cut(&rt, alloc, &mut builder, CUT), Ok(()));
    let read = opened(&rt, builder);
    let qname = NameRef::from_octets(b"\x03www\x01C\x07example\x00".as_slice());
    let qname = qname.expect(&rt, "a name");
    let found = read.look_up(&qname, Rtype::A);
    let found = found.expect(&rt, "a name of the zone");
    is(&rt, found.authoritative(), false);
    let cut = found.cut().expect(&rt, "a cut");
    is(&rt, cut.as_slice(), CUT);
    let signer = found.signer().expect(&rt, "a signer");
    is(&rt, signer.data().len(), 1);
    is(&rt, count_records(found.authority()), 2);
    is(&rt, count_records(found.glue()), 1);
    drop(found);
    drop(read);
}

#[test]
fn the_last_version_number_is_the_last(rt: HostRuntime) {
    let alloc = rt.alloc();
    let builder = builder(&rt, alloc);
    let mut zone = builder.build_at(u64::MAX).expect(&rt, "memory");
    let mut session = zone.write(alloc);
    add(&rt, &mut session, address(&rt, alloc, HOST, 60, 1));
    let refused = session.commit(&rt, false).err();
    is(&rt, refused, Some(CommitError::VersionsExhausted));
    let read = session.handle().expect(&rt, "memory");
    is(&rt, read.version_number(), u64::MAX);
    assert!(rt; read.first_rrset().is_none());
    drop(read);
    let same = address(&rt, alloc, HOST, 60, 1);
    assert!(rt; session.has_data(&same));
    drop(same);
    drop(session);
    is(&rt, zone.versions(), u64::MAX);
    zone.close(&rt);
}

#[test]
fn texts_of_refused_cuts_and_aliases(rt: HostRuntime) {
    let alloc = rt.alloc();
    let outside = "Out of zone";
    let memory = "out of memory";
    says(&rt, alloc, &InsertCutError::OutOfZone, outside);
    let at_apex = InsertCutError::ZoneCutAtApex;
    says(&rt, alloc, &at_apex, "Zone cut at apex");
    says(&rt, alloc, &InsertCutError::Memory, memory);
    says(&rt, alloc, &InsertCnameError::OutOfZone, outside);
    let at_apex = InsertCnameError::CnameAtApex;
    says(&rt, alloc, &at_apex, "CNAME at apex");
    says(&rt, alloc, &InsertCnameError::Memory, memory);
}

/// A zone that gives its one version.
#[derive(Drop)]
struct Kept {
    read: ReadZone,
}

impl ZoneStore for Kept {
    ghost use Rattle.std.specs.Prelude.{◌≡◌};

    type Read = ReadZone;

    ghost MayGive = { λ z c. c ≡ z.read };

    ghost class_of = { λ z. z.read.version.class };

    ghost apex_of = { λ z. z.read.version.apex };

    fn class(&self) -> Class {
        self.read.class()
    }

    fn apex_name(&self) -> &StoredName {
        self.read.apex_name()
    }

    fn read<R: Wait>(&self, _rt: &R) -> Result<ReadZone, AllocError> {
        self.read.clone()
    }
}

/// A zone without records, of class IN, whose version has this number.
fn numbered<R: Abort>(rt: &R, alloc: Global, apex: &[u8], number: u64) -> Zone<Kept> {
    let builder = ZoneBuilder::new(alloc, name(rt, alloc, apex), Class::IN);
    let read = builder.into_read(number).expect(rt, "memory");
    Zone::new(Kept { read })
}

fn plant<R: Abort>(
    rt: &R,
    alloc: Global,
    tree: &mut ZoneTree<Zone<Kept>>,
    apex: &[u8],
    number: u64,
) {
    let zone = numbered(rt, alloc, apex, number);
    tree.insert_zone(zone).expect(rt, "a new zone");
}

/// The number of the version of the zone that a name lies in.
fn nearest<R: Abort>(rt: &R, tree: &ZoneTree<Zone<Kept>>, qname: &[u8], class: u16) -> Option<u64> {
    let qname = NameRef::from_octets(qname).expect(rt, "a name");
    match tree.find_zone(&qname, Class::from_int(class)) {
        Some(zone) => Some(zone.store().read.version_number()),
        None => None,
    }
}

/// The number of the version of a zone that is handed back where one stands already.
fn number_back(put: Result<(), InsertZoneError<Zone<Kept>>>) -> Option<u64> {
    match put {
        Err(InsertZoneError::ZoneExists(zone)) => {
            let number = zone.store().read.version_number();
            drop(zone);
            Some(number)
        }
        Err(InsertZoneError::Memory(zone)) => {
            drop(zone);
            None
        }
        Ok(()) => None,
    }
}

#[test]
fn a_tree_of_zones_finds_the_nearest(rt: HostRuntime) {
    let alloc = rt.alloc();
    let mut tree = ZoneTree::new(alloc);
    plant(&rt, alloc, &mut tree, B, 3);
    plant(&rt, alloc, &mut tree, APEX, 1);
    plant(&rt, alloc, &mut tree, A, 2);
    let below_a = b"\x01x\x01a\x07example\x00";
    is(&rt, nearest(&rt, &tree, below_a, 1), Some(2));
    is(&rt, nearest(&rt, &tree, B, 1), Some(3));
    is(&rt, nearest(&rt, &tree, CUT, 1), Some(1));
    is(&rt, nearest(&rt, &tree, OUTSIDE, 1), None);
    is(&rt, nearest(&rt, &tree, below_a, 3), None);
    let again = numbered(&rt, alloc, b"\x01A\x07EXAMPLE\x00", 9);
    is(&rt, number_back(tree.insert_zone(again)), Some(9));
    is(&rt, nearest(&rt, &tree, below_a, 1), Some(2));
    let apex = NameRef::from_octets(A).expect(&rt, "a name");
    let removed = tree.remove_zone(&apex, Class::IN).expect(&rt, "a zone");
    is(&rt, removed.store().read.version_number(), 2);
    drop(removed);
    is(&rt, nearest(&rt, &tree, below_a, 1), Some(1));
    drop(tree);
}

/// A zone in memory without records, of class IN, whose version has this number.
fn in_memory<R: Abort>(rt: &R, alloc: Global, apex: &[u8], number: u64) -> Zone<ZoneApex> {
    let builder = ZoneBuilder::new(alloc, name(rt, alloc, apex), Class::IN);
    Zone::new(builder.build_at(number).expect(rt, "memory"))
}

/// Puts a zone into a tree, and tells whether it was taken. One that is handed back is ended.
fn is_planted<R: Wait>(rt: &R, tree: &mut ZoneTree<Zone<ZoneApex>>, zone: Zone<ZoneApex>) -> bool {
    match tree.insert_zone(zone) {
        Ok(()) => true,
        Err(InsertZoneError::ZoneExists(zone)) => {
            zone.close(rt);
            false
        }
        Err(InsertZoneError::Memory(zone)) => {
            zone.close(rt);
            false
        }
    }
}

/// A handle of the current version of the zone that a name lies in.
fn nearest_read<R: Abort + Wait>(
    rt: &R,
    tree: &ZoneTree<Zone<ZoneApex>>,
    qname: &[u8],
) -> ReadZone {
    let qname = NameRef::from_octets(qname).expect(rt, "a name");
    let zone = tree.find_zone(&qname, Class::IN).expect(rt, "a zone");
    zone.read(rt).expect(rt, "memory")
}

#[test]
fn a_tree_of_zones_in_memory_is_ended(rt: HostRuntime) {
    let alloc = rt.alloc();
    let mut tree = ZoneTree::new(alloc);
    let below = in_memory(&rt, alloc, A, 2);
    is(&rt, is_planted(&rt, &mut tree, below), true);
    let above = in_memory(&rt, alloc, APEX, 1);
    is(&rt, is_planted(&rt, &mut tree, above), true);
    let again = in_memory(&rt, alloc, b"\x01A\x07EXAMPLE\x00", 9);
    is(&rt, is_planted(&rt, &mut tree, again), false);
    let below = nearest_read(&rt, &tree, b"\x01x\x01a\x07example\x00");
    let above = nearest_read(&rt, &tree, B);
    tree.close(&rt);
    is(&rt, below.version_number(), 2);
    is(&rt, above.version_number(), 1);
    drop(above);
    drop(below);
}
