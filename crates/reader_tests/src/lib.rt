//! Tests of what is published to readers: each call once, readers on threads, and what refused allocations leave.
#![tactic(auto)]

#[cfg(test)]
mod common;
#[cfg(test)]
mod place_tests;
#[cfg(test)]
mod reading_tests;
#[cfg(test)]
mod refusal_tests;
#[cfg(test)]
mod thread_tests;
