// How many readers there may be.

use crate::common::{Entry, held_number, is, opened};
use published::{Reader, ReaderError};
use std::alloc::{AllocError, Global};
use std::fmt::{Display, Write};
use std::process::Abort;

/// As many other readers as `another` gives, at most so many, and whether each refusal was for want of a place.
fn others(
    alloc: Global,
    reader: &mut Reader<Entry>,
    most: usize,
) -> Result<(Vec<Reader<Entry>>, bool), AllocError> {
    let mut others = Vec::new(alloc);
    let mut is_place = true;
    for _ in 0..most {
        match reader.another() {
            Ok(other) => others.push(other)?,
            Err(refused) => is_place = is_place && refused == ReaderError::NoPlace,
        }
    }
    Ok((others, is_place))
}

#[test]
fn sixteen_other_readers(rt: HostRuntime) {
    let alloc = rt.alloc();
    let (mut reader, publisher) = opened(&rt, alloc, 7, 17).expect(&rt, "memory");
    let (first, is_place) = others(alloc, &mut reader, 20).expect(&rt, "memory");
    is(
        &rt,
        (first.len(), reader.refused(), is_place),
        (16, 4, true),
    );
    drop(first);
    let (second, is_place) = others(alloc, &mut reader, 17).expect(&rt, "memory");
    is(
        &rt,
        (second.len(), reader.refused(), is_place),
        (16, 5, true),
    );
    publisher.close(&rt);
    drop(second);
    drop(reader);
}

#[test]
fn one_place(rt: HostRuntime) {
    let alloc = rt.alloc();
    let (mut reader, publisher) = opened(&rt, alloc, 7, 1).expect(&rt, "memory");
    let (none, is_place) = others(alloc, &mut reader, 1).expect(&rt, "memory");
    is(&rt, (none.len(), reader.refused(), is_place), (0, 1, true));
    is(&rt, held_number(&reader), 7);
    publisher.close(&rt);
    drop(none);
    drop(reader);
}

#[test]
fn the_most_places(rt: HostRuntime) {
    let alloc = rt.alloc();
    let (mut reader, publisher) = opened(&rt, alloc, 7, 4095).expect(&rt, "memory");
    let (all, is_place) = others(alloc, &mut reader, 4095).expect(&rt, "memory");
    is(
        &rt,
        (all.len(), reader.refused(), is_place),
        (4094, 1, true),
    );
    publisher.close(&rt);
    drop(all);
    drop(reader);
}

fn says<R: Abort, T: Display>(rt: &R, alloc: Global, value: &T, wanted: &str) {
    let mut said = String::new(alloc);
    write!(said, "{value}").expect(rt, "memory");
    is(rt, said.as_str(), wanted);
    drop(said);
}

#[test]
fn texts_of_refusals_print(rt: HostRuntime) {
    says(
        &rt,
        rt.alloc(),
        &ReaderError::NoPlace,
        "no place for another reader",
    );
    says(&rt, rt.alloc(), &ReaderError::Memory, "out of memory");
}
