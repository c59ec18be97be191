// The parts of one version, and a zone that opens with them.

use crate::common::{
    APEX, HOST, SERVER, add, address, alias, commit, is, name, put_soa, server, signer, zone,
};
use dns_name::{Label, ToName};
use dns_numbers::{Class, Rtype};
use std::alloc::Global;
use std::process::Abort;
use std::sync::Wait;
use zone_store::{CommitError, NodeChildren, NodeRrsets, Special, ZoneApex, ZoneNode};

const CUT: &[u8] = b"\x03sub\x07example\x00";

const CUT_SERVER: &[u8] = b"\x02ns\x03sub\x07example\x00";

/// A zone with a cut, an alias, and the name b, which has no RRset and exists for the name below it.
fn parted<R: Abort + Wait>(rt: &R, alloc: Global) -> ZoneApex {
    let mut zone = zone(rt, alloc);
    let mut session = zone.write(alloc);
    put_soa(rt, alloc, &mut session, 1);
    add(rt, &mut session, server(rt, alloc, APEX, 3600, SERVER));
    add(rt, &mut session, server(rt, alloc, CUT, 60, CUT_SERVER));
    add(rt, &mut session, signer(rt, alloc, CUT));
    add(rt, &mut session, address(rt, alloc, CUT_SERVER, 60, 3));
    let owner = b"\x03www\x07example\x00";
    add(rt, &mut session, alias(rt, alloc, owner, HOST));
    let owner = b"\x01a\x01b\x07example\x00";
    add(rt, &mut session, address(rt, alloc, owner, 60, 4));
    commit(rt, &mut session);
    drop(session);
    zone
}

/// The types of a name's RRsets, in order.
fn types<R: Abort>(rt: &R, alloc: Global, rrsets: &NodeRrsets<'_>) -> Vec<u16> {
    let mut types = Vec::new(alloc);
    for set in rrsets.iter() {
        types.push(set.rtype().to_int()).expect(rt, "memory");
    }
    types
}

/// Asserts that a node is there, and has RRsets of these types.
fn has_types<R: Abort>(rt: &R, alloc: Global, node: Option<ZoneNode<'_>>, wanted: &[u16]) {
    let node = node.expect(rt, "a node");
    let found = types(rt, alloc, &node.rrsets());
    is(rt, found.as_slice(), wanted);
    is(rt, node.rrsets().is_empty(), wanted.is_empty());
    drop(found);
}

/// The node of a label.
fn below<'v, R: Abort>(rt: &R, children: &NodeChildren<'v>, label: &[u8]) -> Option<ZoneNode<'v>> {
    let label = Label::from_slice(label).expect(rt, "a label");
    children.get(&label)
}

/// What a name is.
#[derive(Debug, PartialEq, Drop)]
enum NameKind {
    Absent,
    Plain,
    Alias,
    Cut,
    SignedCut,
}

/// What a name is by its RRsets.
fn kind(special: Option<Special<'_>>) -> NameKind {
    match special {
        Some(Special::Cut { ns: _, ds }) => {
            if ds.is_some() {
                NameKind::SignedCut
            } else {
                NameKind::Cut
            }
        }
        Some(Special::Cname(_)) => NameKind::Alias,
        None => NameKind::Plain,
    }
}

/// What a name is, where it exists.
fn kind_of(node: Option<ZoneNode<'_>>) -> NameKind {
    match node {
        Some(node) => node.with_special(|special| kind(special)),
        None => NameKind::Absent,
    }
}

/// What the name of a label is.
fn kind_below<R: Abort>(rt: &R, children: &NodeChildren<'_>, label: &[u8]) -> NameKind {
    let label = Label::from_slice(label).expect(rt, "a label");
    children.with(&label, kind_of)
}

/// Asserts that these are the parts of the apex of `parted`.
fn are_parts<R: Abort>(
    rt: &R,
    alloc: Global,
    rrsets: &NodeRrsets<'_>,
    children: &NodeChildren<'_>,
) {
    let found = types(rt, alloc, rrsets);
    is(rt, found.as_slice(), [2_u16, 6].as_slice());
    drop(found);
    has_types(rt, alloc, below(rt, children, b"sub"), &[2, 43]);
    has_types(rt, alloc, below(rt, children, b"WWW"), &[5]);
    has_types(rt, alloc, below(rt, children, b"b"), &[]);
    is(rt, kind_below(rt, children, b"sub"), NameKind::SignedCut);
    is(rt, kind_below(rt, children, b"www"), NameKind::Alias);
    is(rt, kind_below(rt, children, b"b"), NameKind::Plain);
    is(rt, kind_below(rt, children, b"ns"), NameKind::Absent);
    is(rt, kind_below(rt, children, b""), NameKind::Absent);
}

#[test]
fn lends_the_parts_of_a_version(rt: HostRuntime) {
    let alloc = rt.alloc();
    let zone = parted(&rt, alloc);
    let read = zone.read(&rt).expect(&rt, "memory");
    let rrsets = zone.rrsets(&read);
    let children = zone.children(&read);
    are_parts(&rt, alloc, &rrsets, &children);
    is(&rt, rrsets.is_empty(), false);
    assert!(rt; rrsets.get(Rtype::SOA).is_some());
    assert!(rt; rrsets.get(Rtype::A).is_none());
    let node = below(&rt, &children, b"b").expect(&rt, "a node");
    has_types(&rt, alloc, below(&rt, &node.children(), b"a"), &[1]);
    is(
        &rt,
        kind_below(&rt, &node.children(), b"b"),
        NameKind::Absent,
    );
    drop(read);
    zone.close(&rt);
}

#[test]
fn tells_zone_cuts(rt: HostRuntime) {
    let alloc = rt.alloc();
    let zone = parted(&rt, alloc);
    let read = zone.read(&rt).expect(&rt, "memory");
    let node = below(&rt, &zone.children(&read), b"SUB").expect(&rt, "a node");
    let cut = node.zone_cut(alloc).expect(&rt, "memory");
    let cut = cut.expect(&rt, "a zone cut");
    is(&rt, cut.name.as_slice(), CUT);
    is(&rt, cut.ns.data().len(), 1);
    is(&rt, cut.ds.is_some(), true);
    let wanted = address(&rt, alloc, CUT_SERVER, 60, 3);
    assert!(rt; cut.glue.len() == 1);
    assert!(rt; cut.glue[0] == wanted);
    drop(wanted);
    drop(cut);
    let node = below(&rt, &zone.children(&read), b"www").expect(&rt, "a node");
    let cut = node.zone_cut(alloc).expect(&rt, "memory");
    is(&rt, cut.is_none(), true);
    drop(cut);
    drop(read);
    zone.close(&rt);
}

#[test]
fn opens_with_the_parts(rt: HostRuntime) {
    let alloc = rt.alloc();
    let zone = parted(&rt, alloc);
    let read = zone.read(&rt).expect(&rt, "memory");
    let apex = name(&rt, alloc, b"\x07eXAMPLE\x00");
    assert!(rt; apex.name_eq(read.apex_name()));
    let rrsets = zone.rrsets(&read);
    let children = zone.children(&read);
    let again = ZoneApex::from_parts(alloc, apex, Class::from_int(3), rrsets, children, 7);
    let again = again.expect(&rt, "memory");
    drop(read);
    zone.close(&rt);
    is(&rt, again.versions(), 7);
    is(&rt, again.class(), Class::from_int(3));
    is(&rt, again.name().as_slice(), b"\x07eXAMPLE\x00".as_slice());
    let read = again.read(&rt).expect(&rt, "memory");
    are_parts(&rt, alloc, &again.rrsets(&read), &again.children(&read));
    drop(read);
    again.close(&rt);
}

#[test]
fn opens_at_the_last_number(rt: HostRuntime) {
    let alloc = rt.alloc();
    let zone = parted(&rt, alloc);
    let read = zone.read(&rt).expect(&rt, "memory");
    let apex = name(&rt, alloc, APEX);
    assert!(rt; apex.name_eq(read.apex_name()));
    let rrsets = zone.rrsets(&read);
    let children = zone.children(&read);
    let last = ZoneApex::from_parts(alloc, apex, Class::IN, rrsets, children, u64::MAX);
    let mut last = last.expect(&rt, "memory");
    drop(read);
    zone.close(&rt);
    let mut session = last.write(alloc);
    add(&rt, &mut session, address(&rt, alloc, HOST, 60, 1));
    let refused = session.commit(&rt, false).err();
    is(&rt, refused, Some(CommitError::VersionsExhausted));
    drop(session);
    is(&rt, last.versions(), u64::MAX);
    last.close(&rt);
}
