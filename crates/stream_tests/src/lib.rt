//! Tests of messages in streams: frames, whole and cut off, requests that are served, a transfer that is asked for,
//! transfers of which both halves run, and the words of both programs.
#![tactic(auto)]

#[cfg(test)]
mod asking_tests;
#[cfg(test)]
mod common;
#[cfg(test)]
mod frame_tests;
#[cfg(test)]
mod halves_tests;
#[cfg(test)]
mod primary_tests;
#[cfg(test)]
mod serving_tests;
#[cfg(test)]
mod words_tests;
