//! The replies of one transfer, pulled one by one. The zone's text has records of 41, 31, 26, 26 and 41 octets, each message 25 more
//! (RFC 1035, 4.1: 12 of the header and 13 of the question).

use crate::common::is;
use crate::xfr_server_tests::{axfr_question, example_zone};
use dns_numbers::Class;
use std::alloc::Global;
use std::process::Abort;
use std::sync::Wait;
use xfr_replies::{TransferReplies, TransferText};
use xfr_server::{CallResult, ReplyStream, ServiceFeedback};

/// The length of an item's reply; 1 for the feedback that a transfer begins, 2 for that of its end.
fn number_of<R: Abort>(rt: &R, item: &CallResult) -> usize {
    match item.feedback() {
        Some(ServiceFeedback::BeginTransaction) => 1,
        Some(ServiceFeedback::EndTransaction) => 2,
        None => item.response().expect(rt, "a reply").as_slice().len(),
    }
}

/// The numbers of all items of a stream, in decimal digits, each with a space after it.
fn numbers<R: Abort + Wait>(rt: &R, alloc: Global, limit: usize, singles: bool) -> String {
    let request = axfr_question(rt, alloc, Class::IN).finish();
    let text = TransferText::whole(alloc, example_zone(rt, alloc));
    let mut stream = TransferReplies::new(alloc, request, limit, singles, text);
    let mut all = String::new(alloc);
    for _ in 0..9u8 {
        let Some(item) = stream.next_item() else {
            break;
        };
        let item = item.expect(rt, "an item");
        let number = number_of(rt, &item);
        drop(item);
        write!(all, "{number} ").expect(rt, "memory");
    }
    drop(stream);
    all
}

#[test]
fn messages_are_filled(rt: HostRuntime) {
    let alloc = rt.alloc();
    let one = numbers(&rt, alloc, 65_535, false);
    is(&rt, one.as_str(), "1 190 2 ");
    drop(one);
    let exact = numbers(&rt, alloc, 97, false);
    is(&rt, exact.as_str(), "1 97 77 66 2 ");
    drop(exact);
    let one_less = numbers(&rt, alloc, 96, false);
    is(&rt, one_less.as_str(), "1 66 82 92 2 ");
    drop(one_less);
}

#[test]
fn messages_have_one_record_each(rt: HostRuntime) {
    let alloc = rt.alloc();
    let singles = numbers(&rt, alloc, 65_535, true);
    is(&rt, singles.as_str(), "1 66 56 51 51 66 2 ");
    drop(singles);
}

#[test]
fn a_record_without_room_ends_a_transfer(rt: HostRuntime) {
    let alloc = rt.alloc();
    let none = numbers(&rt, alloc, 65, false);
    is(&rt, none.as_str(), "1 25 ");
    drop(none);
}
