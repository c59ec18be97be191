//! Tests of numbers, labels, names, record data, records and messages: each kind of call once, and values from outside.
#![tactic(auto)]

#[cfg(test)]
mod common;
#[cfg(test)]
mod dns_label_tests;
#[cfg(test)]
mod dns_message_tests;
#[cfg(test)]
mod dns_name_tests;
#[cfg(test)]
mod dns_numbers_tests;
#[cfg(test)]
mod dns_rdata_tests;
#[cfg(test)]
mod dns_rdata_vector_tests;
#[cfg(test)]
mod dns_wire_tests;
#[cfg(test)]
mod rdata_octets_tests;
#[cfg(test)]
mod xfr_batch_tests;
