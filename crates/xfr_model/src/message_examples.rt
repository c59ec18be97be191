// Worked examples of messages as a client sees them: what it refuses, and how long a question is, proved by computation.
ghost use Rattle.std.specs.Prelude.{◌≡◌, [], ◌∷◌, map, Some, None, false, true, length};
ghost use Rattle.dns_numbers.specs.Codes.{type_a, type_axfr, type_ixfr};
ghost use Rattle.dns_wire.specs.Wire.{question_wire};
ghost use Rattle.zone_model.specs.ZoneRows as rows;
ghost use Rattle.xfr_model.specs.Read as reads;
ghost use Rattle.xfr_model.specs.ReplyRows as replies;

/// The head of a first transfer message, and what of it refuses the message (RFC 5936, 2.2).
pub fn head_row()
    ensures sound { map (λ qtype. reads.message_fault true (replies.reply qtype (rows.soa 1 ∷ []))) (type_axfr ∷ type_ixfr ∷ []) ≡ None ∷ None ∷ [] }
    ensures heads { map (λ h. reads.message_fault true (record (replies.reply type_axfr (rows.soa 1 ∷ [])) { header = h }))
        (record replies.transfer_header { qr = false } ∷ record replies.transfer_header { opcode = 4 } ∷ record replies.transfer_header { tc = true } ∷ record replies.transfer_header { rcode = 5 } ∷ [])
        ≡ Some reads.NotValid ∷ Some reads.NotValid ∷ Some reads.NotValid ∷ Some reads.NotValid ∷ [] }
    ensures empty { reads.message_fault true (replies.reply type_axfr []) ≡ Some reads.NotValid }
    ensures authority { reads.message_fault true (record (replies.reply type_axfr (rows.soa 1 ∷ [])) { authority = 1 }) ≡ Some reads.NotValid }
    ensures questions { map (λ qs. reads.message_fault true (record (replies.reply type_axfr (rows.soa 1 ∷ [])) { questions = qs })) ([] ∷ (replies.asked type_axfr ∷ replies.asked type_axfr ∷ []) ∷ []) ≡ Some reads.NotValid ∷ Some reads.NotValid ∷ [] }
    ensures other_type { reads.message_fault true (replies.reply type_a (rows.soa 1 ∷ [])) ≡ Some reads.Malformed }
    ensures unreadable { reads.message_fault true (record (replies.reply type_axfr []) { answers = None ∷ [] }) ≡ Some reads.Malformed }
    ensures no_soa { reads.message_fault true (replies.reply type_axfr (rows.address rows.t 1 ∷ rows.soa 1 ∷ [])) ≡ Some reads.NotValid }
    ensures later { map (λ qs. reads.message_fault false (record (replies.reply type_axfr (rows.address rows.t 1 ∷ [])) { questions = qs })) ([] ∷ (replies.asked type_axfr ∷ []) ∷ (replies.asked type_axfr ∷ replies.asked type_axfr ∷ []) ∷ []) ≡ None ∷ None ∷ Some reads.NotValid ∷ [] }
{}

/// A message that answers something else, before anything else is looked at: another id, or one question that isn't the request's, names up to case.
pub fn other_row()
    ensures id { reads.request_fault 1001 (replies.asked type_axfr) true (replies.reply type_axfr []) ≡ Some reads.OtherAnswer }
    ensures same { reads.request_fault 1000 (record (replies.asked type_axfr) { qname = rows.loud_e }) true (replies.reply type_axfr (rows.soa 1 ∷ [])) ≡ None }
    ensures name { reads.request_fault 1000 (record (replies.asked type_axfr) { qname = rows.sub }) true (replies.reply type_axfr (rows.soa 1 ∷ [])) ≡ Some reads.OtherAnswer }
    ensures rtype { reads.request_fault 1000 (replies.asked type_ixfr) true (replies.reply type_axfr (rows.soa 1 ∷ [])) ≡ Some reads.OtherAnswer }
    ensures class { reads.request_fault 1000 (record (replies.asked type_axfr) { qclass = 3 }) true (replies.reply type_axfr (rows.soa 1 ∷ [])) ≡ Some reads.OtherAnswer }
    ensures later { reads.request_fault 1000 (replies.asked type_axfr) false (record (replies.reply type_axfr (rows.soa 1 ∷ [])) { questions = [] }) ≡ None }
{}

/// The length of a question in wire form.
pub fn question_row()
    ensures { length (question_wire (replies.asked 252)) ≡ 13 }
{}
