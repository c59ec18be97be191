// Worked examples, proved by computation.
ghost use Rattle.std.specs.Prelude.{◌≡◌, ◌∷◌, [], ◌++◌, replicate, take, drop, true, false, Some, None, length};
ghost use Rattle.dns_rdata.specs.Records.{record_wire};
ghost use Rattle.dns_rdata.specs.RecordRows.{example, soa, ns_record};
ghost use Rattle.dns_wire.specs.Wire.{message_wire};
ghost use Rattle.dns_wire.specs.Parse.{is_whole, parsed, sole_question_in};
ghost use Rattle.dns_rdata.specs.Heads.{record_in};
ghost use Rattle.dns_wire.specs.Reply.{error_answer};
ghost use Rattle.dns_wire.specs.MessageRows.{axfr_query, three_questions, reply, points_into_header};

/// Records are read back from their octets.
pub fn records_back()
    ensures back { record_in (record_wire (soa 1)) ≡ Some (soa 1) }
    ensures back_ns { record_in (record_wire ns_record) ≡ Some ns_record }
{}

/// Eleven octets are no message.
#[tactic(auto, unfolding(crate::specs::Parse::parsed))]
pub fn short()
    ensures { parsed (replicate 11 0) ≡ None }
{}

/// A request for a whole zone: its question, whether it is whole, and answers to it that hold the question, or have no room for it.
pub fn requests()
    ensures sole { sole_question_in (message_wire axfr_query) ≡ Some (record { qname = example; qtype = 252; qclass = 1 }) }
    ensures question_fits { length (message_wire (error_answer 512 (message_wire axfr_query) 5)) ≡ 25 }
    ensures no_room { message_wire (error_answer 24 (message_wire axfr_query) 5) ≡ 3 ∷ 232 ∷ 128 ∷ 2 ∷ replicate 8 0 }
    ensures whole_message { is_whole (message_wire axfr_query) ≡ true }
    ensures cut { is_whole (take 24 (message_wire axfr_query)) ≡ false }
    ensures longer { is_whole (message_wire axfr_query ++ 0 ∷ []) ≡ false }
    ensures answered { is_whole (message_wire (reply (soa 1 ∷ ns_record ∷ []))) ≡ true }
{}

/// Error answers: with all questions and the rcode; with the questions before the first without room, and SERVFAIL; with the header
/// alone; and with no question and the rcode, where the question of the request can't be read.
pub fn error_answers()
    ensures all_fit { message_wire (error_answer 25 (message_wire axfr_query) 5) ≡ 3 ∷ 232 ∷ 128 ∷ 5 ∷ 0 ∷ 1 ∷ replicate 6 0 ++ drop 12 (message_wire axfr_query) }
    ensures first_fits { message_wire (error_answer 29 (message_wire three_questions) 5) ≡ 3 ∷ 232 ∷ 128 ∷ 2 ∷ 0 ∷ 1 ∷ replicate 6 0 ++ 0 ∷ 0 ∷ 6 ∷ 0 ∷ 1 ∷ [] }
    ensures below_header { message_wire (error_answer 11 (message_wire three_questions) 5) ≡ 3 ∷ 232 ∷ 128 ∷ 2 ∷ replicate 8 0 }
    ensures unread { message_wire (error_answer 512 (take 24 (message_wire axfr_query)) 1) ≡ 3 ∷ 232 ∷ 128 ∷ 1 ∷ replicate 8 0 }
{}

/// A pointer may lead into the header.
pub fn header_pointer()
    ensures { is_whole points_into_header ≡ true }
{}
