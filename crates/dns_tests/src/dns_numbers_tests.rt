// Vectors from outside, and each kind of call once.

use crate::common::{is, prints};
use dns_name::{ParseError, parse_octets, parse_u16, parse_u32, parse_u48};
use dns_numbers::{Class, Opcode, Rcode, Rtype, Serial, TsigRcode, Ttl};
use std::cmp::Ordering;
use std::fmt;
use std::process::Abort;

/// The numbers with names of their own, and what they print (IANA, Domain Name System Parameters): types, classes, opcodes, rcodes and the errors of a
/// TSIG record; a type without name (RFC 3597, 5); and two TTLs.
const NUMBERS: &str = "\
1 A\n\
2 NS\n\
3 MD\n\
4 MF\n\
5 CNAME\n\
6 SOA\n\
7 MB\n\
8 MG\n\
9 MR\n\
12 PTR\n\
14 MINFO\n\
15 MX\n\
16 TXT\n\
28 AAAA\n\
33 SRV\n\
43 DS\n\
250 TSIG\n\
251 IXFR\n\
252 AXFR\n\
255 ANY\n\
1 IN\n\
255 ANY\n\
0 QUERY\n\
1 IQUERY\n\
2 STATUS\n\
4 NOTIFY\n\
5 UPDATE\n\
0 NOERROR\n\
1 FORMERR\n\
2 SERVFAIL\n\
3 NXDOMAIN\n\
4 NOTIMP\n\
5 REFUSED\n\
6 YXDOMAIN\n\
7 YXRRSET\n\
8 NXRRSET\n\
9 NOTAUTH\n\
10 NOTZONE\n\
0 NOERROR\n\
1 FORMERR\n\
16 BADSIG\n\
17 BADKEY\n\
18 BADTIME\n\
22 BADTRUNC\n\
65280 TYPE65280\n\
0 0\n\
3600 3600\n\
";

/// Adds a line with a number and what prints it.
fn push_line<R: Abort, T: fmt::Display>(rt: &R, out: &mut String, number: u32, code: &T) {
    writeln!(out, "{number} {code}").expect(rt, "memory");
}

fn push_types<R: Abort>(rt: &R, out: &mut String, codes: &[Rtype]) {
    for code in codes {
        push_line(rt, out, u32::from(code.to_int()), code);
    }
}

fn push_opcodes<R: Abort>(rt: &R, out: &mut String, codes: &[Opcode]) {
    for code in codes {
        push_line(rt, out, u32::from(code.to_int()), code);
    }
}

fn push_rcodes<R: Abort>(rt: &R, out: &mut String, codes: &[Rcode]) {
    for code in codes {
        push_line(rt, out, u32::from(code.to_int()), code);
    }
}

fn push_errors<R: Abort>(rt: &R, out: &mut String, codes: &[TsigRcode]) {
    for code in codes {
        push_line(rt, out, u32::from(code.to_int()), code);
    }
}

#[test]
fn named_numbers(rt: HostRuntime) {
    let mut out = String::new(rt.alloc());
    let types = [
        Rtype::A,
        Rtype::NS,
        Rtype::MD,
        Rtype::MF,
        Rtype::CNAME,
        Rtype::SOA,
        Rtype::MB,
        Rtype::MG,
        Rtype::MR,
        Rtype::PTR,
        Rtype::MINFO,
        Rtype::MX,
        Rtype::TXT,
        Rtype::AAAA,
        Rtype::SRV,
        Rtype::DS,
        Rtype::TSIG,
        Rtype::IXFR,
        Rtype::AXFR,
        Rtype::ANY,
    ];
    push_types(&rt, &mut out, types.as_slice());
    push_line(&rt, &mut out, u32::from(Class::IN.to_int()), &Class::IN);
    push_line(&rt, &mut out, u32::from(Class::ANY.to_int()), &Class::ANY);
    let opcodes = [
        Opcode::QUERY,
        Opcode::IQUERY,
        Opcode::STATUS,
        Opcode::NOTIFY,
        Opcode::UPDATE,
    ];
    push_opcodes(&rt, &mut out, opcodes.as_slice());
    let rcodes = [
        Rcode::NOERROR,
        Rcode::FORMERR,
        Rcode::SERVFAIL,
        Rcode::NXDOMAIN,
        Rcode::NOTIMP,
        Rcode::REFUSED,
        Rcode::YXDOMAIN,
        Rcode::YXRRSET,
        Rcode::NXRRSET,
        Rcode::NOTAUTH,
        Rcode::NOTZONE,
    ];
    push_rcodes(&rt, &mut out, rcodes.as_slice());
    let errors = [
        TsigRcode::NOERROR,
        TsigRcode::FORMERR,
        TsigRcode::BADSIG,
        TsigRcode::BADKEY,
        TsigRcode::BADTIME,
        TsigRcode::BADTRUNC,
    ];
    push_errors(&rt, &mut out, errors.as_slice());
    push_types(&rt, &mut out, [Rtype::from_int(65280)].as_slice());
    push_line(&rt, &mut out, Ttl::ZERO.to_int(), &Ttl::ZERO);
    push_line(&rt, &mut out, 3600, &Ttl::from_int(3600));
    is(&rt, out.as_str(), NUMBERS);
}

#[test]
fn errors_print(rt: HostRuntime) {
    prints(
        &rt,
        rt.alloc(),
        &ParseError,
        "unexpected end or malformed item",
    );
}

fn order_of(a: u32, b: u32) -> Option<Ordering> {
    Serial::from(a).partial_cmp(&Serial::from(b))
}

#[test]
fn serials(rt: HostRuntime) {
    let orders = [
        order_of(0, 0x7fff_ffff),
        order_of(0, 0x8000_0000),
        order_of(0x8000_0000, 0),
        order_of(0, 0x8000_0001),
        order_of(5, 5),
    ];
    let wanted = [
        Some(Ordering::Less),
        None,
        None,
        Some(Ordering::Greater),
        Some(Ordering::Equal),
    ];
    is(&rt, orders, wanted);
    let next = Serial::from(u32::MAX).add(2).into_int();
    is(&rt, next, 1);
}

#[test]
fn numbers(rt: HostRuntime) {
    let octets = b"\x01\x02\x03\x04\x05\x06\x07";
    let found = (
        parse_u16(octets, 1),
        parse_u32(octets, 3),
        parse_u48(octets, 0),
        parse_octets(octets, usize::MAX, 1).is_err(),
    );
    let wanted = (
        Ok((0x0203, 3)),
        Ok((0x0405_0607, 7)),
        Ok((0x0102_0304_0506, 6)),
        true,
    );
    is(&rt, found, wanted);
    let (part, after) = parse_octets(octets, 5, 2).expect(&rt, "two octets");
    let truths = [part == b"\x06\x07".as_slice(), after == 7];
    is(&rt, truths, [true; 2]);
}
