// The messages of a transfer: what they say, how a client reads them, and what it applies to a zone; laws and worked examples.
#![tactic(auto)]

mod message_examples;
mod reader_examples;
mod reading_laws;
