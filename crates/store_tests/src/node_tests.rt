// Node calls on one zone.

use crate::common::{address, aliases, commit, filled, host, is, name, push, target};
use dns_name::{Label, NameRef};
use dns_numbers::{Rtype, Ttl};
use dns_rdata::{Ns, ZoneRecordData};
use std::alloc::Global;
use std::process::Abort;
use zone_store::{EditError, NodeError, UpdateError, WriteNode, WriteZone};
use zone_types::{Rrset, SharedRr, SharedRrset, ZoneCut};

fn child<'s, 'z, R: Abort>(rt: &R, mut node: WriteNode<'s, 'z>, label: &[u8]) -> WriteNode<'s, 'z> {
    let label = Label::from_slice(label).expect(rt, "a label");
    assert!(rt; !label.is_root());
    node.update_child(&label).ok().expect(rt, "a node");
    node
}

fn hosts<R: Abort>(rt: &R, alloc: Global, first: u8, second: u8) -> SharedRrset {
    let mut set = Rrset::new(alloc, Rtype::A, Ttl::from_int(30));
    push(rt, &mut set, host(first));
    push(rt, &mut set, host(second));
    set.into_shared(alloc).expect(rt, "memory")
}

fn servers<R: Abort>(rt: &R, alloc: Global) -> SharedRrset {
    let mut set = Rrset::new(alloc, Rtype::NS, Ttl::from_int(30));
    let server = Ns::new(name(rt, alloc, b"\x02ns\x01c\x07example\x00"));
    push(rt, &mut set, ZoneRecordData::Ns(server));
    set.into_shared(alloc).expect(rt, "memory")
}

/// How many data the pending set at a name has, none where there is no set.
fn count<R: Abort>(rt: &R, session: &mut WriteZone<'_>, label: &[u8], rtype: Rtype) -> usize {
    let node = child(rt, session.open(false), label);
    let count = match node.get_rrset(rtype) {
        Some(set) => set.data().len(),
        None => 0,
    };
    drop(node);
    count
}

/// Puts a set at the name of a label.
fn put<R: Abort>(
    rt: &R,
    session: &mut WriteZone<'_>,
    label: &[u8],
    set: SharedRrset,
) -> Result<(), EditError> {
    let mut node = child(rt, session.open(false), label);
    let told = node.update_rrset(set);
    drop(node);
    told
}

#[test]
fn replaces_a_set(rt: HostRuntime) {
    let alloc = rt.alloc();
    let mut zone = filled(&rt, alloc);
    let mut session = zone.write(alloc);
    let told = put(&rt, &mut session, b"A", hosts(&rt, alloc, 8, 9));
    is(&rt, told, Ok(()));
    is(&rt, count(&rt, &mut session, b"a", Rtype::A), 2);
    let told = put(&rt, &mut session, b"a", hosts(&rt, alloc, 7, 7));
    is(&rt, told, Ok(()));
    is(&rt, count(&rt, &mut session, b"a", Rtype::A), 1);
    let none = Rrset::new(alloc, Rtype::A, Ttl::from_int(30));
    let none = none.into_shared(alloc).expect(&rt, "memory");
    let told = put(&rt, &mut session, b"a", none);
    is(&rt, told, Ok(()));
    is(&rt, count(&rt, &mut session, b"a", Rtype::A), 0);
    drop(session);
    zone.close(&rt);
}

#[test]
fn reaches_names_below(rt: HostRuntime) {
    let alloc = rt.alloc();
    let mut zone = filled(&rt, alloc);
    let mut session = zone.write(alloc);
    let node = child(&rt, session.open(false), b"a");
    let mut node = child(&rt, node, b"B");
    let wanted = b"\x01B\x01a\x07Example\x00";
    is(&rt, node.name().as_slice(), wanted.as_slice());
    assert!(rt; node.get_rrset(Rtype::A).is_none());
    let told = node.update_rrset(hosts(&rt, alloc, 1, 2));
    is(&rt, told, Ok(()));
    commit(&rt, node.into_session());
    let owner = NameRef::from_octets(b"\x01b\x01a\x07example\x00".as_slice()).expect(&rt, "a name");
    let read = session.handle().expect(&rt, "memory");
    assert!(rt; read.rrset_at(&owner, Rtype::A).is_some());
    drop(read);
    drop(session);
    zone.close(&rt);
}

#[test]
fn has_room_for_255_octets(rt: HostRuntime) {
    let alloc = rt.alloc();
    let mut zone = filled(&rt, alloc);
    let mut session = zone.write(alloc);
    let long = [b'x'; 63];
    let node = child(&rt, session.open(false), &long);
    let node = child(&rt, node, &long);
    let mut node = child(&rt, node, &long);
    // 9 + 3 * 64 octets; 54 are left.
    let label = Label::from_slice(&long[..54]).expect(&rt, "a label");
    assert!(rt; !label.is_root());
    let refused = node.update_child(&label).err();
    is(&rt, refused, Some(UpdateError::LongName));
    let node = child(&rt, node, &long[..53]);
    is(&rt, node.name().as_slice().len(), 255);
    drop(node);
    drop(session);
    zone.close(&rt);
}

#[test]
fn makes_a_cut(rt: HostRuntime) {
    let alloc = rt.alloc();
    let mut zone = filled(&rt, alloc);
    let mut session = zone.write(alloc);
    let mut glue = Vec::new(alloc);
    let inside = address(&rt, alloc, b"\x02ns\x01c\x07example\x00", 60, 5);
    glue.push(inside).expect(&rt, "memory");
    let outside = address(&rt, alloc, b"\x02ns\x03net\x00", 60, 6);
    glue.push(outside).expect(&rt, "memory");
    let cut = ZoneCut {
        name: name(&rt, alloc, b"\x01c\x07example\x00"),
        ns: servers(&rt, alloc),
        ds: None,
        glue,
    };
    let mut node = child(&rt, session.open(false), b"c");
    assert!(rt; cut.ns.as_rrset().rtype() == Rtype::NS);
    is(&rt, node.make_zone_cut(cut), Ok(()));
    let node = child(&rt, node, b"ns");
    assert!(rt; node.get_rrset(Rtype::A).is_some());
    drop(node);
    is(&rt, count(&rt, &mut session, b"c", Rtype::NS), 1);
    let mut node = child(&rt, session.open(false), b"c");
    is(&rt, node.make_regular(), Ok(()));
    drop(node);
    is(&rt, count(&rt, &mut session, b"c", Rtype::NS), 0);
    drop(session);
    zone.close(&rt);
}

#[test]
fn makes_an_alias(rt: HostRuntime) {
    let alloc = rt.alloc();
    let mut zone = filled(&rt, alloc);
    let mut session = zone.write(alloc);
    let other = b"\x01b\x07example\x00";
    let alias = SharedRr::new(Ttl::from_int(30), target(&rt, alloc, other));
    assert!(rt; alias.rtype() == Rtype::CNAME);
    let refused = session.open(false).make_cname(alias);
    is(&rt, refused, Err(NodeError::NotAllowed));
    let alias = SharedRr::new(Ttl::from_int(30), target(&rt, alloc, other));
    let mut node = child(&rt, session.open(false), b"a");
    assert!(rt; alias.rtype() == Rtype::CNAME);
    is(&rt, node.make_cname(alias), Ok(()));
    let two = aliases(&rt, alloc, other, b"\x01c\x07example\x00");
    is(&rt, node.update_rrset(two), Err(EditError::InvalidData));
    let same = aliases(&rt, alloc, other, b"\x01B\x07example\x00");
    is(&rt, node.update_rrset(same), Ok(()));
    drop(node);
    is(&rt, count(&rt, &mut session, b"a", Rtype::CNAME), 1);
    is(&rt, count(&rt, &mut session, b"a", Rtype::A), 1);
    drop(session);
    zone.close(&rt);
}

#[test]
fn removes_a_node_and_what_is_below(rt: HostRuntime) {
    let alloc = rt.alloc();
    let mut zone = filled(&rt, alloc);
    let mut session = zone.write(alloc);
    let node = child(&rt, session.open(false), b"a");
    let mut node = child(&rt, node, b"b");
    let told = node.update_rrset(hosts(&rt, alloc, 1, 2));
    is(&rt, told, Ok(()));
    drop(node);
    let told = put(&rt, &mut session, b"ba", hosts(&rt, alloc, 3, 4));
    is(&rt, told, Ok(()));
    let mut node = child(&rt, session.open(false), b"a");
    is(&rt, node.remove_all(), Ok(()));
    let node = child(&rt, node, b"b");
    assert!(rt; node.get_rrset(Rtype::A).is_none());
    drop(node);
    is(&rt, count(&rt, &mut session, b"a", Rtype::A), 0);
    is(&rt, count(&rt, &mut session, b"ba", Rtype::A), 2);
    let mut node = child(&rt, session.open(false), b"ba");
    is(&rt, node.remove_rrset(Rtype::A), Ok(()));
    drop(node);
    is(&rt, count(&rt, &mut session, b"ba", Rtype::A), 0);
    drop(session);
    zone.close(&rt);
}
