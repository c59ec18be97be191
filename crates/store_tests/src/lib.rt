//! Tests of zone types, sessions, nodes, commits and differences: each kind of call once, and values from outside.
#![tactic(auto)]

#[cfg(test)]
mod builder_tests;
#[cfg(test)]
mod commit_tests;
#[cfg(test)]
mod common;
#[cfg(test)]
mod difference_tests;
#[cfg(test)]
mod documentation_tests;
#[cfg(test)]
mod draft_tests;
#[cfg(test)]
mod error_tests;
#[cfg(test)]
mod node_tests;
#[cfg(test)]
mod opening_tests;
#[cfg(test)]
mod parts_tests;
#[cfg(test)]
mod session_tests;
#[cfg(test)]
mod value_tests;
#[cfg(test)]
mod zone_reader_tests;
#[cfg(test)]
mod zone_tree_tests;
#[cfg(test)]
mod zonefile_tests;
