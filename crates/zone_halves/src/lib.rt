//! Laws of both halves of a transfer over streams (`zone_asking`, `zone_serving`), and of their programs (`run_words` of `zone_primary_run`, `run_secondary`):
//! what a secondary comes to that reads what a granting primary writes.
#![tactic(auto)]

pub mod laws;
