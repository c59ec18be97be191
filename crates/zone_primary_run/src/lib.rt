//! The primary's half of a transfer as a program: a script makes a zone, its history and the key that may have it (docs/SCRIPT.md), and the primary of these
//! answers the requests of a stream (`zone_serving`): transfers (`xfr_server`), and questions for names of the zone, signed where the request was
//! (`xfr_signing`).
#![tactic(auto)]

pub mod errors;
pub mod making;
pub mod program;
pub mod running;

pub use errors::{PrimaryError, exit_status};
pub use making::{Primary, primary_of};
pub use program::{file_of, run_words};
pub use running::run_primary;
pub use tsig_port::Time48;
pub use zone_devices::sinks::StdSink;
pub use zone_devices::sources::StdSource;
pub use zone_serving::{ServeError, Served};
