//! Zones in memory: for programs that keep zones, edit them in sessions, and answer from one version while the next one is written.
//!
//! `ZoneBuilder` and `ZoneApex` make a zone, and `Zone` is a zone whatever keeps it (`ZoneStore`). `ReadZone` is a read handle: one version,
//! whatever is committed later (`ReadableZone`: `query`, `walk`, `look_up`). `WriteZone` is the one session that edits and commits, by
//! records or node by node (`WriteNode`). `ZoneNode` and its kin are the parts of one version; `VersionTree` is a version as a tree of nodes, whose
//! edits count the nodes that they build (`NodeCount`). What zones are made of, answers and differences are in `zone_types`. This crate only passes
//! on: each item is proved in the crate that it comes from. A zone is ended by `close` (`Close`). A handle keeps its version (a test in `store_tests`):
//!
//! ```rust
//! use dns_wire::{A, Class, NameRef, Rcode, Record, Rtype, Ttl, ZoneRecordData};
//! use zone_store::{Close, ReadableZone, Zone, ZoneBuilder, ZoneStore};
//!
//! let alloc = rt.alloc();
//! let apex = NameRef::from_octets(b"\x07example\x00").expect(&rt, "a name");
//! let apex = apex.store(alloc).expect(&rt, "memory");
//! let builder = ZoneBuilder::new(alloc, apex, Class::IN);
//! let mut zone = Zone::new(builder.build().expect(&rt, "memory"));
//! let before = zone.read(&rt).expect(&rt, "memory");
//!
//! let host = NameRef::from_octets(b"\x04host\x07example\x00").expect(&rt, "a name");
//! let owner = host.store(alloc).expect(&rt, "memory");
//! let data = ZoneRecordData::A(A::new([192, 0, 2, 1]));
//! let record = Record::new(owner, Class::IN, Ttl::from_int(60), data);
//! let mut session = zone.write(alloc);
//! session.add_record(record).expect(&rt, "a new record");
//! drop(session.commit(&rt, false).expect(&rt, "a version"));
//! drop(session);
//!
//! let after = zone.read(&rt).expect(&rt, "memory");
//! let found = after
//!     .look_up(&host, Rtype::A)
//!     .expect(&rt, "a name of the zone");
//! assert_eq!(rt; found.rcode(), Rcode::NOERROR);
//! let found = before
//!     .look_up(&host, Rtype::A)
//!     .expect(&rt, "a name of the zone");
//! assert_eq!(rt; found.rcode(), Rcode::NXDOMAIN);
//! zone.close(&rt);
//! ```
#![tactic(auto)]

pub use zone_handles::{
    HandleError, NodeEdit, QueryError, ReadableZone, Step, Zone, ZoneEdit, ZoneStore, ask,
    begin_again, make_step, make_steps, walk,
};
pub use zone_lookup::look_up;
pub use zone_reads::{
    NodeChildren, NodeRrsets, NodeRrsetsIter, ReadZone, Receipt, RrsetIter, Special, WalkItem,
    ZoneNode, ZoneReader, is_same,
};
pub use zone_sessions::{
    CommitError, Desk, EditError, InsertError, MOST_READERS, NodeError, UpdateError, WriteNode,
    WriteZone, ZoneApex, ZoneBuilder,
};
pub use zone_tree::Close;
pub use zone_versions::{NodeCount, TreeSet, TreeSets, VersionTree, ZoneVersion};
