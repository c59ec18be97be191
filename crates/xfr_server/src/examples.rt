// Worked replies of a primary, proved by computation.
ghost use Rattle.std.specs.Prelude.{map, ◌≡◌, [], ◌∷◌, true, false, Some, None};
ghost use Rattle.dns_numbers.specs.Codes.{servfail, type_axfr, type_ixfr, type_soa};
ghost use Rattle.dns_wire.specs.Reply.{empty_answer};
ghost use Rattle.zone_model.specs.Difference.{difference};
ghost use Rattle.zone_model.specs.Offer.{offer_of, whole_text};
ghost use Rattle.zone_model.specs.ZoneRows as rows;
ghost use Rattle.xfr_model.specs.ReplyRows as replies;
ghost use Rattle.xfr_replies.specs.TransferPages.{page_answer};
ghost use Rattle.xfr_server.specs.AnswerRows.{request_of};
ghost use Rattle.xfr_providers.specs.Offers.{offer_alone};
ghost use Rattle.xfr_server.specs.SentTexts.{sent_records};
ghost use Rattle.xfr_server.specs.SignedAnswers.{udp_answer};
ghost use Rattle.xfr_server.specs.Transfers as transfers;
ghost use Rattle.xfr_server.specs.Transfers.Choice.{Refuse, SoaAlone, Text};
ghost use Rattle.xfr_services.specs.declared.modes.XfrMode.TheVariants.{Axfr, Ixfr};
ghost use Rattle.xfr_services.specs.declared.requests.TransportSpecificContext.TheVariants.{Udp, NonUdp};
ghost use Rattle.xfr_providers.specs.declared.providers.XfrDataProviderError.TheVariants.{ParseError, UnknownZone, Refused, TemporarilyUnavailable};

/// The parts of a choice: types that ask for a transfer, rcodes of refusals, octets that a reply may have, and versions that are no news.
pub fn part_row()
    ensures modes { map transfers.mode_of_type (type_axfr ∷ type_ixfr ∷ type_soa ∷ 255 ∷ []) ≡ Some Axfr ∷ Some Ixfr ∷ None ∷ None ∷ [] }
    ensures rcodes { map transfers.rcode_of (ParseError ∷ UnknownZone ∷ Refused ∷ TemporarilyUnavailable ∷ []) ≡ 1 ∷ 9 ∷ 5 ∷ 2 ∷ [] }
    ensures limits { map (λ t. transfers.reply_limit t 100) (NonUdp ∷ Udp None ∷ Udp (Some 1232) ∷ Udp (Some 50) ∷ []) ≡ 65435 ∷ 412 ∷ 1132 ∷ 0 ∷ [] }
    ensures news { map (λ n. transfers.is_caught_up rows.history_2 n) (None ∷ Some 1 ∷ Some 2 ∷ Some 3 ∷ Some 2147483649 ∷ Some 2147483650 ∷ []) ≡ false ∷ false ∷ true ∷ true ∷ true ∷ false ∷ [] }
{}

/// What is sent of an offer: a refusal for another name, for AXFR by UDP, and without an apex SOA, in this order; the SOA to one who has caught
/// up; else a text.
pub fn choice_row()
    ensures other_name { transfers.choice_of Axfr true (Some (record (replies.asked type_axfr) { qname = rows.sub })) None (offer_alone rows.history_1) ≡ Refuse 2 }
    ensures unread { transfers.choice_of Axfr false None None (offer_alone rows.history_1) ≡ Refuse 2 }
    ensures by_udp { transfers.choice_of Axfr true (Some (replies.asked type_axfr)) None (offer_alone rows.empty_zone) ≡ Refuse 4 }
    ensures no_soa { transfers.choice_of Axfr false (Some (replies.asked type_axfr)) None (offer_alone rows.empty_zone) ≡ Refuse 2 }
    ensures caught_up { transfers.choice_of Ixfr true (Some (replies.asked type_ixfr)) (Some 1) (offer_alone rows.history_1) ≡ SoaAlone rows.history_1 }
    ensures behind { transfers.choice_of Ixfr true (Some (replies.asked type_ixfr)) (Some 1) (offer_alone rows.history_2) ≡ Text rows.history_2 false (whole_text rows.history_2) }
    ensures whole { transfers.choice_of Axfr false (Some (replies.asked type_axfr)) (Some 1) (offer_alone rows.history_1) ≡ Text rows.history_1 false (whole_text rows.history_1) }
{}

/// Which text is sent of an offer with differences: these to one who asks for them where each has its two SOA records; else the whole text,
/// with one record a message where the provider wants it and the whole zone was asked for.
pub fn text_row()
    ensures changes { transfers.choice_of Ixfr false (Some (replies.asked type_ixfr)) (Some 1) (offer_of rows.history_3 rows.history_differences true 1) ≡ Text rows.history_3 false rows.history_text }
    ensures none { transfers.choice_of Ixfr false (Some (replies.asked type_ixfr)) (Some 0) (offer_of rows.history_3 rows.history_differences true 0) ≡ Text rows.history_3 false (whole_text rows.history_3) }
    ensures full { transfers.choice_of Axfr false (Some (replies.asked type_axfr)) (Some 1) (offer_of rows.history_3 rows.history_differences true 1) ≡ Text rows.history_3 true (whole_text rows.history_3) }
    ensures unsendable { transfers.choice_of Ixfr false (Some (replies.asked type_ixfr)) (Some 0) (offer_of rows.history_3 (difference rows.empty_zone rows.history_3 ∷ []) false 0) ≡ Text rows.history_3 false (whole_text rows.history_3) }
{}

/// The records of what is chosen, and whether each message holds one: none of a refusal, differences, the SOA alone, and the whole zone, of
/// which alone a message holds one record where the provider wants that.
pub fn records_row()
    ensures refused { sent_records (Refuse servfail) ≡ None }
    ensures changes { sent_records (transfers.choice_of Ixfr false (Some (replies.asked type_ixfr)) (Some 1) (offer_of rows.history_3 rows.history_differences true 1)) ≡ Some (rows.history_text, false) }
    ensures caught_up { sent_records (transfers.choice_of Ixfr true (Some (replies.asked type_ixfr)) (Some 3) (offer_of rows.history_3 rows.history_differences true 3)) ≡ Some (rows.soa 3 ∷ [], false) }
    ensures whole { sent_records (transfers.choice_of Axfr false (Some (replies.asked type_axfr)) None (offer_of rows.history_3 rows.history_differences true 0)) ≡ Some (whole_text rows.history_3, true) }
{}

/// One message by its room: a text, else the SOA alone, else SERVFAIL.
#[tactic(auto, unfolding(tsig_port::proofs::OnLiterals::on_literals))]
pub fn one_message_row()
    ensures whole { udp_answer (request_of type_ixfr) 512 rows.history_1 (whole_text rows.history_1) ≡ page_answer (request_of type_ixfr) (whole_text rows.history_1) }
    ensures soa { udp_answer (request_of type_ixfr) 100 rows.history_1 (whole_text rows.history_1) ≡ page_answer (request_of type_ixfr) (rows.soa 1 ∷ []) }
    ensures none { udp_answer (request_of type_ixfr) 50 rows.history_1 (whole_text rows.history_1) ≡ empty_answer (request_of type_ixfr) servfail }
{}
