//! Tests of answers, the messages that say them, and the handles that give them: each kind of call once, and values from outside.
#![tactic(auto)]

#[cfg(test)]
mod common;
#[cfg(test)]
mod handle_tests;
#[cfg(test)]
mod look_up_tests;
#[cfg(test)]
mod message_tests;
#[cfg(test)]
mod step_tests;
