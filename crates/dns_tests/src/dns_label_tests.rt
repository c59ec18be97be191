// Each kind of call once.

use crate::common::{are_ascending, hash_of, is, prints};
use dns_name::{Label, NameError, OwnedLabel, ParseError};

#[test]
fn labels(rt: HostRuntime) {
    let long = Label::from_slice(&[b'a'; 64]);
    let upper = Label::from_slice(b"NS").expect(&rt, "a label");
    let lower = Label::from_slice(b"ns").expect(&rt, "a label");
    let truths = [
        long.is_err(),
        upper == lower,
        !lower.is_wildcard(),
        !lower.is_root(),
        hash_of(&upper) == hash_of(&lower),
        upper.to_canonical().as_slice() == b"ns".as_slice(),
        Label::root().is_root(),
        Label::wildcard().is_wildcard(),
    ];
    is(&rt, truths, [true; 8]);
}

#[test]
fn labels_in_place(rt: HostRuntime) {
    let long = OwnedLabel::from_slice(&[b'a'; 64]);
    let longest = OwnedLabel::from_slice(&[b'Z'; 63]).expect(&rt, "a label");
    let mut copy = longest.duplicate();
    copy.make_canonical();
    let truths = [
        long.is_err(),
        longest.as_slice() == [b'Z'; 63].as_slice(),
        longest.to_canonical().as_slice() == [b'z'; 63].as_slice(),
        copy == longest,
        copy.as_label() == longest.as_label(),
        hash_of(&copy) == hash_of(&longest),
        OwnedLabel::root().is_root(),
        !OwnedLabel::root().is_wildcard(),
        OwnedLabel::wildcard().is_wildcard(),
        !OwnedLabel::wildcard().is_root(),
    ];
    is(&rt, truths, [true; 10]);
}

/// Labels in ascending order, without case; the octets after `Z` in ASCII stay where they are.
#[test]
fn order(rt: HostRuntime) {
    let mut labels = Vec::new(rt.alloc());
    for octets in [
        b"".as_slice(),
        b"*".as_slice(),
        b"[".as_slice(),
        b"A".as_slice(),
        b"aa".as_slice(),
        b"B".as_slice(),
        b"yljkjljk".as_slice(),
        b"Z".as_slice(),
        b"{".as_slice(),
        b"\xc8".as_slice(),
    ] {
        let label = OwnedLabel::from_slice(octets).expect(&rt, "a label");
        labels.push(label).expect(&rt, "memory");
    }
    are_ascending(&rt, labels);
}

#[test]
fn texts(rt: HostRuntime) {
    let label = Label::from_slice(b"a.b c\\\x07\xff").expect(&rt, "a label");
    let text = "a\\.b\\ c\\\\\\007\\255";
    prints(&rt, rt.alloc(), &label, text);
    prints(&rt, rt.alloc(), &OwnedLabel::from_label(&label), text);
    prints(&rt, rt.alloc(), &NameError, "not a domain name");
    is(&rt, ParseError::from(NameError), ParseError);
}
