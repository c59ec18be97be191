// The texts of refusals, each of each kind.
use crate::common::{is, key, says};
use dns_numbers::TsigRcode;
use std::alloc::Global;
use std::process::Abort;
use tsig_port::{Key, ServerError, Time48, ValidationError};

/// Asserts that the refusal's text is the name of its error, as RFC 8945, 3 has it, and what it shows to a programmer.
fn names<R: Abort>(rt: &R, alloc: Global, refusal: ServerError<Key>, wanted: &str, shown: &str) {
    says(rt, alloc, &refusal, wanted);
    let text = format!(in alloc; "{refusal:?}").expect(rt, "memory");
    is(rt, text.as_str(), shown);
    drop(text);
    drop(refusal);
}

#[test]
fn texts_of_refusals(rt: HostRuntime) {
    let alloc = rt.alloc();
    let at = Time48::from_u64(1000);
    let late = ValidationError::ServerBadTime {
        client: at,
        server: at,
    };
    for (error, wanted) in [
        (ValidationError::BadAlg, "unknown algorithm"),
        (ValidationError::BadOther, "bad content of 'other' field"),
        (ValidationError::BadSig, "bad signature"),
        (ValidationError::BadTrunc, "short signature"),
        (ValidationError::BadKey, "unknown key"),
        (ValidationError::BadTime, "bad time"),
        (ValidationError::FormErr, "format error"),
        (ValidationError::ServerUnsigned, "unsigned answer"),
        (ValidationError::ServerBadKey, "unknown key on server"),
        (ValidationError::ServerBadSig, "server failed to verify MAC"),
        (late, "server reported bad time"),
        (
            ValidationError::TooManyUnsigned,
            "too many unsigned messages",
        ),
    ] {
        says(&rt, alloc, &error, wanted);
    }
    names(
        &rt,
        alloc,
        ServerError::Formerr,
        "FORMERR",
        "ServerError(FORMERR)",
    );
    let unsigned = ServerError::Unsigned(TsigRcode::BADKEY);
    names(&rt, alloc, unsigned, "BADKEY", "ServerError(BADKEY)");
    let key = key(&rt);
    let mac = key.hmac();
    let late = ServerError::BadTime(key, mac, at, 300, at);
    names(&rt, alloc, late, "BADTIME", "ServerError(BADTIME)");
}
