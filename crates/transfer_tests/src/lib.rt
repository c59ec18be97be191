//! Tests of both halves of a transfer, each by itself: each kind of call once, and values from outside.
#![tactic(auto)]

#[cfg(test)]
mod common;
#[cfg(test)]
mod provider_tests;
#[cfg(test)]
mod reply_vector_tests;
#[cfg(test)]
mod service_tests;
#[cfg(test)]
mod signed_vector_tests;
#[cfg(test)]
mod transfer_replies_tests;
#[cfg(test)]
mod transfer_vectors;
#[cfg(test)]
mod updater_tests;
#[cfg(test)]
mod xfr_client_tests;
#[cfg(test)]
mod xfr_server_tests;
