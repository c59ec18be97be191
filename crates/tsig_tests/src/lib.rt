//! Tests of keys, TSIG data and signed exchanges: each kind of call once, and values from outside.
#![tactic(auto)]

#[cfg(test)]
mod common;
#[cfg(test)]
mod tsig_keys_tests;
#[cfg(test)]
mod tsig_keys_vector_tests;
#[cfg(test)]
mod tsig_port_error_reply_tests;
#[cfg(test)]
mod tsig_port_room_tests;
#[cfg(test)]
mod tsig_port_stream_vector_tests;
#[cfg(test)]
mod tsig_port_tests;
#[cfg(test)]
mod tsig_port_text_tests;
#[cfg(test)]
mod tsig_port_transaction_tests;
#[cfg(test)]
mod tsig_port_unsigned_tests;
#[cfg(test)]
mod tsig_port_vector_tests;
#[cfg(test)]
mod tsig_rdata_tests;
