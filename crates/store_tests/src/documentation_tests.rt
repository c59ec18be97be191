// The examples of the documentation of `zone_types` and `zone_store`.

use dns_name::NameRef;
use dns_numbers::{Class, Rcode, Rtype, Ttl};
use dns_rdata::{A, Record, ZoneRecordData};
use zone_store::{Close, ReadableZone, Zone, ZoneBuilder, ZoneStore};
use zone_types::{Answer, Rrset};

#[test]
fn a_set_becomes_an_answer(rt: HostRuntime) {
    let alloc = rt.alloc();
    let name = NameRef::from_octets(b"\x02ns\x07example\x00").expect(&rt, "a name");
    let owner = name.store(alloc).expect(&rt, "memory");
    let data = ZoneRecordData::A(A::new([192, 0, 2, 1]));
    let record = Record::new(owner, Class::IN, Ttl::from_int(3600), data);

    let mut set = Rrset::from_record(alloc, record).expect(&rt, "memory");
    set.limit_ttl(Ttl::from_int(60));
    let mut answer = Answer::new(Rcode::NOERROR);
    answer.set_authoritative(true);
    answer.add_answer(set.into_shared(alloc).expect(&rt, "memory"));

    let first = answer.content().first().expect(&rt, "memory");
    let first = first.expect(&rt, "a record");
    assert_eq!(rt; first.rtype(), Rtype::A);
    assert_eq!(rt; first.ttl(), Ttl::from_int(60));
    drop(first);
    drop(answer);
}

#[test]
fn a_handle_keeps_its_version(rt: HostRuntime) {
    let alloc = rt.alloc();
    let apex = NameRef::from_octets(b"\x07example\x00").expect(&rt, "a name");
    let apex = apex.store(alloc).expect(&rt, "memory");
    let builder = ZoneBuilder::new(alloc, apex, Class::IN);
    let mut zone = Zone::new(builder.build().expect(&rt, "memory"));
    let before = zone.read(&rt).expect(&rt, "memory");

    let host = NameRef::from_octets(b"\x04host\x07example\x00").expect(&rt, "a name");
    let owner = host.store(alloc).expect(&rt, "memory");
    let data = ZoneRecordData::A(A::new([192, 0, 2, 1]));
    let record = Record::new(owner, Class::IN, Ttl::from_int(60), data);
    let mut session = zone.write(alloc);
    session.add_record(record).expect(&rt, "a new record");
    drop(session.commit(&rt, false).expect(&rt, "a version"));
    drop(session);

    let after = zone.read(&rt).expect(&rt, "memory");
    let found = after
        .look_up(&host, Rtype::A)
        .expect(&rt, "a name of the zone");
    assert_eq!(rt; found.rcode(), Rcode::NOERROR);
    let found = before
        .look_up(&host, Rtype::A)
        .expect(&rt, "a name of the zone");
    assert_eq!(rt; found.rcode(), Rcode::NXDOMAIN);
    drop(after);
    drop(before);
    zone.close(&rt);
}
