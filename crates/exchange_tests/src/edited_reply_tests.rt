//! Transfers in three messages over a link that edits the replies: one record alone in each of them but for the SOA records that begin an
//! incremental transfer, since no two others have room in one message.
use crate::common::{empty_zone, is, shared_key, short_key};
use crate::cut_mac_tests::{add, txt};
use crate::exchanges::{
    Primary, at, commit_and_push, edit, provider_of, stack_of, transfer, zone_of,
};
use crate::zone_transfer_tests::{reply, signed_soa};
use std::alloc::Global;
use std::process::Abort;
use std::str::SplitAsciiWhitespace;
use std::sync::Wait;
use tsig_port::{Key, ServerSequence};
use zone_store::WriteZone;
use zone_sync::{MemoryLink, ReplyEdit, XfrClient, XfrMode};

/// In each row: what it shows; the edits of the replies; the answer; and how many versions are committed.
///
/// The first reply has 142 octets: header and question 25, the SOA record 41, the TSIG 76, of which the MAC begins with octet 104, the
/// moment ends with 99, and the original id is 136 and 137. The second has 65,520, its TSIG begins with octet 65,444. The third is like
/// the first.
const WHOLE: &str = "\
no edit;;Ok(Updated);1
a bit of the MAC's first octet;flip 0 104;Err(Tsig(BadSig));0
a bit of the MAC's last octet;flip 0 135;Err(Tsig(BadSig));0
a bit of the moment, which is within the fudge then;flip 0 99;Err(Tsig(BadSig));0
a bit of the original id;flip 0 137;Err(Tsig(BadSig));0
a bit of the rcode;flip 0 3;Err(Tsig(BadSig));0
a bit of the second one's id: the original one is signed, and put back;flip 1 1;Ok(Updated);1
no header is left;cut 0 11;Err(Short(ShortMessage));0
nothing but a header is left;cut 2 12;Err(Tsig(FormErr));0
the first one is lost;drop 0;Err(Tsig(BadSig));0
the second one is lost;drop 1;Err(Tsig(BadSig));0
the last one is lost;drop 2;Err(Ended);0
the second one comes twice;repeat 1;Err(Tsig(BadSig));0
the last one comes twice, and isn't taken again;repeat 2;Ok(Updated);1
two of them change places;swap 1 2;Err(Tsig(BadSig));0
none is left;none;Err(Ended);0
the second one without its TSIG, which ARCOUNT no longer counts;cut 1 65444,flip 1 11;Err(Tsig(TooManyUnsigned));0
an edit of what isn't there;flip 3 0,cut 3 0,drop 3,repeat 3,swap 0 3,flip 0 142;Ok(Updated);1
two that undo each other;swap 0 2,swap 2 0;Ok(Updated);1";

/// The same of a transfer of what is newer. Its first reply has 224 octets, since three SOA records stand in it; once that is taken, the
/// version that stands is committed again.
const NEWER: &str = "\
no edit;;Ok(Updated);2
a bit of the MAC's first octet;flip 0 186;Err(Tsig(BadSig));0
no header is left;cut 0 11;Err(Short(ShortMessage));0
nothing but a header is left;cut 2 12;Err(Tsig(FormErr));1
the first one is lost;drop 0;Err(Tsig(BadSig));0
the second one is lost;drop 1;Err(Tsig(BadSig));1
the last one is lost;drop 2;Err(Ended);1
the second one comes twice;repeat 1;Err(Tsig(BadSig));1
two of them change places;swap 1 2;Err(Tsig(BadSig));1
the second one without its TSIG;cut 1 65444,flip 1 11;Err(Tsig(TooManyUnsigned));1
none is left;none;Err(Ended);0";

/// The same as the first of these, with a key whose MACs have 16 octets: the last one of the second reply's is octet 65,497.
const CUT_MACS: &str = "\
no edit;;Ok(Updated);1
a bit of the second MAC's last octet;flip 1 65497;Err(Tsig(BadSig));0
two of them change places;swap 1 2;Err(Tsig(BadSig));0";

/// The next number of an edit.
fn number(words: &mut SplitAsciiWhitespace<'_>) -> Option<usize> {
    let word = words.next()?;
    match word.parse::<usize>() {
        Ok(number) => Some(number),
        Err(_) => None,
    }
}

/// The edit that words say.
fn edit_of(alloc: Global, text: &str) -> Option<ReplyEdit> {
    let mut words = text.split_ascii_whitespace();
    let word = words.next()?;
    if word == "none" {
        return Some(ReplyEdit::Replace(Vec::new(alloc)));
    }
    let reply = number(&mut words)?;
    if word == "drop" {
        return Some(ReplyEdit::Drop { reply });
    }
    if word == "repeat" {
        return Some(ReplyEdit::Repeat { reply });
    }
    let other = number(&mut words)?;
    if word == "flip" {
        return Some(ReplyEdit::Flip {
            reply,
            octet: other,
        });
    }
    if word == "cut" {
        return Some(ReplyEdit::Cut { reply, len: other });
    }
    Some(ReplyEdit::Swap {
        first: reply,
        second: other,
    })
}

/// The edits that words say, with a comma between them.
fn edits_of<R: Abort>(rt: &R, alloc: Global, text: &str) -> Vec<ReplyEdit> {
    let mut edits = Vec::new(alloc);
    for words in text.split(',') {
        if !words.is_empty() {
            let found = edit_of(alloc, words).expect(rt, "an edit");
            edits.push(found).ok().expect(rt, "memory");
        }
    }
    edits
}

/// A primary whose zone opened with an SOA record of serial 1, and has one of serial 2 and a TXT record of 65,400 octets of data since.
pub(crate) fn large_primary<R: Abort + Wait>(rt: &R, alloc: Global, key: &Key) -> Primary {
    let mut zone = zone_of(rt, alloc, "soa-1", 0);
    let mut session = zone.write(alloc);
    let mut provider = provider_of(rt, alloc, &mut session, key);
    session.want_difference(true);
    edit(rt, alloc, &mut session, "-soa-1");
    edit(rt, alloc, &mut session, "+soa-2");
    add(rt, &mut session, txt(rt, alloc));
    commit_and_push(rt, &mut session, &mut provider);
    drop(session);
    zone.close(rt);
    stack_of(provider, key)
}

/// Asserts what a row says of a secondary that has the serial 1: afterwards its version is the last that was made.
fn is_so<R: Abort + Wait>(
    rt: &R,
    alloc: Global,
    primary: &Primary,
    key: &Key,
    mode: XfrMode,
    row: &'static str,
) {
    let (title, rest) = row.split_once(';').expect(rt, "a title");
    let (edits, wanted) = rest.split_once(';').expect(rt, "edits");
    let mut zone = zone_of(rt, alloc, "soa-1", 0);
    let mut session = zone.write(alloc);
    let edits = edits_of(rt, alloc, edits);
    let mut link = MemoryLink::with_edits(alloc, 65_535, Vec::new(alloc), edits);
    let mut made = Vec::new(alloc);
    let answer = transfer(
        rt,
        alloc,
        primary,
        &mut session,
        key,
        mode,
        &mut link,
        &mut made,
    );
    drop(link);
    let count = made.len();
    let told = format!(in alloc; "{answer:?};{count}").expect(rt, "memory");
    let text = told.as_str();
    assert_eq!(rt; text, wanted, "{title}");
    drop(told);
    let current = session.handle().expect(rt, "memory");
    is(rt, current.version_number() == count as u64, true);
    drop(current);
    drop(made);
    drop(session);
    zone.close(rt);
}

/// Asserts the rows of a table.
fn are_so<R: Abort + Wait>(rt: &R, alloc: Global, key: &Key, mode: XfrMode, table: &'static str) {
    let primary = large_primary(rt, alloc, key);
    for row in table.split('\n') {
        is_so(rt, alloc, &primary, key, mode, row);
    }
    drop(primary);
}

#[test]
fn edits_of_a_whole_zone(rt: HostRuntime) {
    let key = shared_key(&rt);
    are_so(&rt, rt.alloc(), &key, XfrMode::Axfr, WHOLE);
    drop(key);
}

#[test]
fn edits_of_what_is_newer(rt: HostRuntime) {
    let key = shared_key(&rt);
    are_so(&rt, rt.alloc(), &key, XfrMode::Ixfr, NEWER);
    drop(key);
}

#[test]
fn edits_under_cut_macs(rt: HostRuntime) {
    let key = short_key(&rt);
    are_so(&rt, rt.alloc(), &key, XfrMode::Axfr, CUT_MACS);
    drop(key);
}

/// An unsigned reply: the answers after the question of the request.
fn unsigned<R: Abort>(rt: &R, alloc: Global, words: &str) -> Vec<u8> {
    let message = reply(alloc, 1000, words).expect(rt, "a reply");
    message.finish().into_octets()
}

/// Replies to the request of a client: a signed SOA, so many unsigned addresses, and an SOA, signed or not.
fn replies_with<R: Abort>(
    rt: &R,
    alloc: Global,
    session: &mut WriteZone<'_>,
    key: &Key,
    count: u8,
    is_signed: bool,
) -> Vec<Vec<u8>> {
    let mut client = XfrClient::new(alloc, session, key, XfrMode::Axfr, at());
    let mut request = client.request(65_535).expect(rt, "a request");
    client.into_session();
    let checked = ServerSequence::request(key, &mut request, at());
    drop(request);
    let found = checked.ok().expect(rt, "accepted");
    let mut server = found.expect(rt, "a TSIG");
    let mut replies = Vec::new(alloc);
    replies
        .push(signed_soa(rt, alloc, &mut server, 1000, at()))
        .expect(rt, "memory");
    for _ in 0..count {
        replies
            .push(unsigned(rt, alloc, "none first"))
            .expect(rt, "memory");
    }
    let last = if is_signed {
        signed_soa(rt, alloc, &mut server, 1000, at())
    } else {
        unsigned(rt, alloc, "asked soa")
    };
    replies.push(last).expect(rt, "memory");
    drop(server);
    replies
}

/// Asserts that the first unsigned reply of these is refused, and that nothing is committed.
fn refuses_unsigned<R: Abort + Wait>(rt: &R, alloc: Global, count: u8, is_signed: bool) {
    let key = shared_key(rt);
    let mut zone = empty_zone(rt, alloc);
    let mut session = zone.write(alloc);
    let replies = replies_with(rt, alloc, &mut session, &key, count, is_signed);
    let edits = vec![in alloc; ReplyEdit::Replace(replies)]
        .ok()
        .expect(rt, "memory");
    let mut link = MemoryLink::with_edits(alloc, 65_535, Vec::new(alloc), edits);
    let primary = large_primary(rt, alloc, &key);
    let mut made = Vec::new(alloc);
    let answer = transfer(
        rt,
        alloc,
        &primary,
        &mut session,
        &key,
        XfrMode::Axfr,
        &mut link,
        &mut made,
    );
    drop(primary);
    drop(link);
    let told = format!(in alloc; "{answer:?} {}", made.len()).expect(rt, "memory");
    is(rt, told.as_str(), "Err(Tsig(TooManyUnsigned)) 0");
    drop(told);
    drop(made);
    drop(session);
    zone.close(rt);
    drop(key);
}

// RFC 8945, 5.3.1, would have up to 99 of them taken.
#[test]
fn unsigned_replies_between_signed_ones(rt: HostRuntime) {
    let alloc = rt.alloc();
    refuses_unsigned(&rt, alloc, 1, true);
    refuses_unsigned(&rt, alloc, 1, false);
    refuses_unsigned(&rt, alloc, 99, true);
    refuses_unsigned(&rt, alloc, 100, true);
}
