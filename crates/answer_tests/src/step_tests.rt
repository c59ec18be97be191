// Steps of readers and one writer, and what their handles answer.

use crate::common::{address, is, name};
use crate::handle_tests::zone;
use dns_name::OwnedLabel;
use dns_numbers::{Rcode, Rtype};
use std::alloc::Global;
use std::process::Abort;
use std::sync::Wait;
use zone_store::{
    Close, HandleError, NodeEdit, ReadZone, Step, WriteZone, ZoneEdit, ask, make_steps,
};

fn then<R: Abort>(rt: &R, steps: &mut Vec<Step>, step: Step) {
    steps.push(step).ok().expect(rt, "memory");
}

/// Two steps: an address is added, and what is pending is committed or dropped.
fn write<R: Abort>(rt: &R, alloc: Global, steps: &mut Vec<Step>, owner: &[u8], last: Step) {
    let added = address(rt, alloc, owner, 1);
    then(rt, steps, Step::Edit(ZoneEdit::Add(added)));
    then(rt, steps, last);
}

/// Makes all steps.
fn make<'z, R: Abort + Wait>(
    rt: &R,
    alloc: Global,
    session: WriteZone<'z>,
    handles: &mut Vec<ReadZone>,
    steps: Vec<Step>,
) -> WriteZone<'z> {
    let (session, made, outcome) = make_steps(rt, alloc, session, handles, steps.as_slice());
    outcome.expect(rt, "memory");
    is(rt, made, steps.len());
    drop(steps);
    session
}

/// Asserts that a handle's answer to A of a name has this rcode, or that there is none for this reason.
fn answers<R: Abort>(
    rt: &R,
    alloc: Global,
    handles: &[ReadZone],
    handle: usize,
    qname: &[u8],
    wanted: Result<Rcode, HandleError>,
) {
    let qname = name(rt, alloc, qname);
    let told = match ask(handles, handle, &qname, Rtype::A) {
        Ok(answer) => Ok(answer.rcode()),
        Err(error) => Err(error),
    };
    assert_eq!(rt; told, wanted, "{handle}");
    drop(qname);
}

#[test]
fn handles_answer_from_their_positions(rt: HostRuntime) {
    let alloc = rt.alloc();
    let mut zone = zone(&rt, alloc);
    let session = zone.write(alloc);
    let mut handles = Vec::new(alloc);
    let mut steps = Vec::new(alloc);
    write(&rt, alloc, &mut steps, b"\x01a\x01c\0", Step::Commit(false));
    then(&rt, &mut steps, Step::Read);
    write(&rt, alloc, &mut steps, b"\x01b\x01c\0", Step::Rollback);
    then(&rt, &mut steps, Step::Read);
    write(&rt, alloc, &mut steps, b"\x01a\x01c\0", Step::Commit(true));
    then(&rt, &mut steps, Step::Read);
    let session = make(&rt, alloc, session, &mut handles, steps);
    let b = b"\x01B\x01c\0";
    let absent = Rcode::NXDOMAIN;
    answers(&rt, alloc, handles.as_slice(), 2, b, Ok(absent));
    let mut steps = Vec::new(alloc);
    write(&rt, alloc, &mut steps, b, Step::Commit(false));
    then(&rt, &mut steps, Step::Read);
    then(&rt, &mut steps, Step::Copy(0));
    then(&rt, &mut steps, Step::Copy(9));
    let session = make(&rt, alloc, session, &mut handles, steps);
    answers(&rt, alloc, handles.as_slice(), 0, b, Ok(absent));
    answers(&rt, alloc, handles.as_slice(), 3, b, Ok(Rcode::NOERROR));
    answers(&rt, alloc, handles.as_slice(), 4, b, Ok(absent));
    let lacking = Err(HandleError::NoHandle);
    answers(&rt, alloc, handles.as_slice(), 5, b, lacking);
    let outside = Err(HandleError::OutOfZone);
    answers(&rt, alloc, handles.as_slice(), 0, b"\x01d\0", outside);
    let mut steps = Vec::new(alloc);
    write(&rt, alloc, &mut steps, b"\x01e\x01c\0", Step::EndSession);
    then(&rt, &mut steps, Step::Open(true));
    then(&rt, &mut steps, Step::Commit(false));
    then(&rt, &mut steps, Step::Read);
    let session = make(&rt, alloc, session, &mut handles, steps);
    answers(&rt, alloc, handles.as_slice(), 5, b, Ok(Rcode::NOERROR));
    let e = b"\x01e\x01c\0";
    answers(&rt, alloc, handles.as_slice(), 5, e, Ok(absent));
    drop(handles);
    drop(session);
    zone.close(&rt);
}

/// A step that removes the node of a label below the apex, with what is below it.
fn removed<R: Abort>(rt: &R, alloc: Global, label: &[u8]) -> Step {
    let mut labels = Vec::new(alloc);
    let label = OwnedLabel::from_slice(label).expect(rt, "a label");
    labels.push(label).expect(rt, "memory");
    Step::Edit(ZoneEdit::Node(labels, NodeEdit::RemoveAll))
}

#[test]
fn nodes_are_edited(rt: HostRuntime) {
    let alloc = rt.alloc();
    let mut zone = zone(&rt, alloc);
    let session = zone.write(alloc);
    let mut handles = Vec::new(alloc);
    let mut steps = Vec::new(alloc);
    write(&rt, alloc, &mut steps, b"\x01a\x01c\0", Step::Commit(false));
    then(&rt, &mut steps, Step::Read);
    then(&rt, &mut steps, removed(&rt, alloc, b"A"));
    then(&rt, &mut steps, removed(&rt, alloc, b""));
    then(&rt, &mut steps, Step::Commit(false));
    then(&rt, &mut steps, Step::Read);
    then(&rt, &mut steps, Step::Edit(ZoneEdit::ClearAll));
    then(&rt, &mut steps, Step::Commit(false));
    then(&rt, &mut steps, Step::Read);
    let session = make(&rt, alloc, session, &mut handles, steps);
    let a = b"\x01a\x01c\0";
    answers(&rt, alloc, handles.as_slice(), 0, a, Ok(Rcode::NOERROR));
    answers(&rt, alloc, handles.as_slice(), 1, a, Ok(Rcode::NXDOMAIN));
    answers(&rt, alloc, handles.as_slice(), 2, a, Ok(Rcode::NXDOMAIN));
    drop(handles);
    drop(session);
    zone.close(&rt);
}
