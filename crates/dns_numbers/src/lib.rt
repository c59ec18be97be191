// Numbers that have names, serial numbers: definitions, their laws and worked examples.
#![tactic(auto)]

mod codes;
mod examples;
mod laws;
mod serial;

pub use codes::{Class, Code, CodeKind, HeaderCode, Opcode, Rcode, Rtype, TsigRcode, Ttl};
pub use serial::Serial;
