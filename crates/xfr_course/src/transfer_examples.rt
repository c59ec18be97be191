// Worked transfers, proved by computation.
ghost use Rattle.std.specs.Prelude.{map, ◌≡◌, [], ◌∷◌, ◌++◌, true, false, Some, None, take, drop, replicate, length};
ghost use Rattle.zone_model.specs.Version.{same_version};
ghost use Rattle.dns_numbers.specs.Codes.{type_axfr, type_ixfr};
ghost use Rattle.zone_model.specs.Edits.{Incompatible, OutOfZone};
ghost use Rattle.zone_model.specs.TransferText.{Axfr, Ixfr};
ghost use Rattle.zone_model.specs.Spells.{spelling};
ghost use Rattle.xfr_model.specs.Read.{spelt};
ghost use Rattle.zone_model.specs.ZoneRows as rows;
ghost use Rattle.xfr_course.specs.CourseRows as examples;
ghost use Rattle.xfr_model.specs.Read as reads;
ghost use Rattle.xfr_model.specs.ReplyRows as replies;
ghost use Rattle.xfr_model.specs.Machine as machine;
ghost use Rattle.xfr_course.specs.Granting as granting;
ghost use Rattle.xfr_course.specs.Outcome as outcomes;
ghost use Rattle.xfr_course.specs.Courses as courses;
ghost use Rattle.xfr_course.specs.Client as clients;
ghost use Rattle.tsig_port.specs.declared.errors.ValidationError.{ValidationError};
ghost use Rattle.zone_model.specs.Walk.{records_of_version};
ghost use Rattle.dns_rdata.specs.RecordRows as data_rows;
ghost use Rattle.dns_wire.specs.Wire.{message_wire};
ghost use Rattle.dns_wire.specs.MessageRows.{ixfr_query, reply};
ghost use Rattle.tsig_port.specs.ExchangeRows.{row_key, row_request, first_reply, bare_reply};
ghost use Rattle.tsig_port.specs.OneKeyRows.{client_key, server_key, client_request};
ghost use Rattle.xfr_course.specs.Joining.{signed_handed, built_checked};
ghost use Rattle.xfr_course.specs.Honest.{carrier_of};
ghost use Rattle.xfr_course.specs.Success.{CarrySent, Succeeds, sent_course};

/// Outcomes: a history is applied; an SOA alone says up to date, or asks to try otherwise.
pub fn outcome_row()
    ensures updated { outcomes.outcome (examples.course Ixfr type_ixfr rows.history_1 (examples.reply type_ixfr rows.history_text ∷ [])) ≡ outcomes.Updated }
    ensures made { outcomes.made (examples.course Ixfr type_ixfr rows.history_1 (examples.reply type_ixfr rows.history_text ∷ [])) ≡ rows.history_1 ∷ rows.history_2 ∷ rows.history_3 ∷ [] }
    ensures up_to_date { outcomes.outcome (examples.course Ixfr type_ixfr (rows.zone (rows.soa 1 ∷ [])) (examples.reply type_ixfr (rows.soa 1 ∷ []) ∷ [])) ≡ outcomes.UpToDate }
    ensures signal { outcomes.outcome (examples.course Ixfr type_ixfr (rows.zone (rows.soa 2 ∷ [])) (examples.reply type_ixfr (rows.soa 1 ∷ []) ∷ [])) ≡ outcomes.RetrySignal }
    ensures no_serial { outcomes.outcome (examples.course Ixfr type_ixfr (rows.zone []) (examples.reply type_ixfr (rows.soa 0 ∷ []) ∷ [])) ≡ outcomes.RetrySignal }
    ensures after_end { outcomes.outcome (examples.course Axfr type_axfr rows.history_1 (examples.reply type_axfr (rows.soa 2 ∷ rows.address rows.nezu 1 ∷ rows.soa 2 ∷ rows.address rows.nezu 1 ∷ []) ∷ [])) ≡ outcomes.Reading reads.AfterEnd }
    ensures unfinished { outcomes.outcome (examples.course Axfr type_axfr rows.history_1 (examples.reply type_axfr (rows.soa 2 ∷ []) ∷ [])) ≡ outcomes.Ended }
{}

/// Which comes first: the numbers, a refused record, a fault of the messages. What was spelt by then is made, as far as there are numbers.
pub fn order_row()
    ensures last { outcomes.outcome (examples.refused_course 18446744073709551614) ≡ outcomes.Reading (reads.Refused Incompatible) }
    ensures none { outcomes.outcome (examples.refused_course 18446744073709551615) ≡ outcomes.VersionsExhausted }
    ensures enough { outcomes.outcome (examples.history_course 18446744073709551612) ≡ outcomes.Updated }
    ensures too_few { outcomes.outcome (examples.history_course 18446744073709551613) ≡ outcomes.VersionsExhausted }
    ensures refused { outcomes.outcome examples.refused_and_behind ≡ outcomes.Reading (reads.Refused Incompatible) }
    ensures made { outcomes.made (examples.history_course 18446744073709551614) ≡ rows.history_1 ∷ [] }
    ensures made_refused { outcomes.made (examples.refused_course 0) ≡ rows.history_1 ∷ [] }
    ensures made_unfinished { outcomes.made (examples.course Ixfr type_ixfr rows.history_1 (examples.reply type_ixfr (take 7 rows.history_text) ∷ [])) ≡ rows.history_1 ∷ rows.history_2 ∷ [] }
{}

/// An SOA alone makes nothing, and a newer one signals a retry; an answer to another request is a fault; an incremental request needs an
/// SOA.
pub fn other_row()
    ensures newer { outcomes.outcome (examples.lone_course 1 2) ≡ outcomes.RetrySignal }
    ensures none_made { outcomes.made (examples.lone_course 1 1) ≡ [] }
    ensures other_id { map (λ c. outcomes.outcome (record c { id = 1001 })) (examples.lone_course 1 1 ∷ examples.history_course 18446744073709551615 ∷ []) ≡ outcomes.Reading reads.OtherAnswer ∷ outcomes.Reading reads.OtherAnswer ∷ [] }
    ensures other_made { map (λ c. outcomes.made (record c { id = 1001 })) (examples.lone_course 1 1 ∷ examples.history_course 0 ∷ []) ≡ [] ∷ [] ∷ [] }
    ensures needs_soa { map (λ v. outcomes.needs_soa Ixfr v) (rows.empty_zone ∷ rows.history_1 ∷ []) ≡ true ∷ false ∷ [] }
    ensures whole { outcomes.needs_soa Axfr rows.empty_zone ≡ false }
{}

/// A client on small courses: a history in two messages, a refusal after a version, and too few numbers with and without one.
pub fn client_row()
    ensures made { (clients.client_of (examples.course Ixfr type_ixfr rows.history_1 (examples.reply type_ixfr (rows.soa 3 ∷ rows.soa 1 ∷ rows.address rows.nezu 5 ∷ []) ∷ examples.reply type_ixfr (drop 3 rows.history_text) ∷ []))).progress.committed ≡ rows.history_1 ∷ rows.history_2 ∷ rows.history_3 ∷ [] }
    ensures met { (clients.client_of (examples.course Ixfr type_ixfr rows.history_1 (examples.reply type_ixfr (rows.soa 3 ∷ rows.soa 1 ∷ rows.address rows.nezu 5 ∷ []) ∷ examples.reply type_ixfr (drop 3 rows.history_text) ∷ []))).met ≡ Some outcomes.Updated }
    ensures refused { (clients.client_of (examples.course Ixfr type_ixfr rows.history_1 (examples.reply type_ixfr (rows.soa 3 ∷ rows.soa 1 ∷ rows.address rows.nezu 6 ∷ rows.soa 2 ∷ []) ∷ []))).met ≡ Some (outcomes.Reading (reads.Refused Incompatible)) }
    ensures before { (clients.client_of (examples.course Ixfr type_ixfr rows.history_1 (examples.reply type_ixfr (rows.soa 3 ∷ rows.soa 1 ∷ rows.address rows.nezu 6 ∷ rows.soa 2 ∷ []) ∷ []))).progress.committed ≡ rows.history_1 ∷ [] }
    ensures last_number { (clients.client_of (record (examples.course Ixfr type_ixfr rows.history_1 (examples.reply type_ixfr (rows.soa 3 ∷ rows.soa 1 ∷ rows.address rows.nezu 6 ∷ rows.soa 2 ∷ []) ∷ [])) { number = 18446744073709551614 })).met ≡ Some (outcomes.Reading (reads.Refused Incompatible)) }
    ensures no_number { (clients.client_of (record (examples.course Ixfr type_ixfr rows.history_1 (examples.reply type_ixfr (rows.soa 3 ∷ rows.soa 1 ∷ rows.address rows.nezu 6 ∷ rows.soa 2 ∷ []) ∷ [])) { number = 18446744073709551615 })).met ≡ Some outcomes.VersionsExhausted }
    ensures one_number { (clients.client_of (record (examples.course Ixfr type_ixfr rows.history_1 (examples.reply type_ixfr rows.history_text ∷ [])) { number = 18446744073709551614 })).progress.committed ≡ rows.history_1 ∷ [] }
    ensures stopped { (clients.client_of (record (examples.course Ixfr type_ixfr rows.history_1 (examples.reply type_ixfr rows.history_text ∷ [])) { number = 18446744073709551614 })).met ≡ Some outcomes.VersionsExhausted }
    ensures up_to_date { (clients.client_of (examples.course Ixfr type_ixfr (rows.zone (rows.soa 1 ∷ [])) (examples.reply type_ixfr (rows.soa 1 ∷ []) ∷ []))).met ≡ Some outcomes.UpToDate }
{}

/// In answer to an incremental question: an SOA alone, of the serial asked with, of a lesser one, a greater one, and one that is greater by going round; a whole zone in
/// place of changes, in one message and in two; two SOAs, which are changes without a batch.
pub fn incremental_row()
    ensures lone { map (λ c. (clients.client_of c).met) (examples.lone_course 1 1 ∷ examples.lone_course 2 1 ∷ examples.lone_course 1 2 ∷ examples.lone_course 4294967295 0 ∷ []) ≡ Some outcomes.UpToDate ∷ Some outcomes.RetrySignal ∷ Some outcomes.RetrySignal ∷ Some outcomes.RetrySignal ∷ [] }
    ensures lone_made { map outcomes.made (examples.lone_course 1 1 ∷ examples.lone_course 2 1 ∷ examples.lone_course 1 2 ∷ []) ≡ [] ∷ [] ∷ [] ∷ [] }
    ensures whole { map outcomes.outcome (examples.begun_whole 6 ∷ examples.whole_in_two 2 ∷ examples.begun_whole 5 ∷ []) ≡ outcomes.Updated ∷ outcomes.Updated ∷ outcomes.Ended ∷ [] }
    ensures whole_made { map outcomes.made (examples.begun_whole 6 ∷ examples.whole_in_two 2 ∷ examples.begun_whole 5 ∷ []) ≡ (rows.history_3 ∷ []) ∷ (rows.history_3 ∷ []) ∷ [] ∷ [] }
    ensures whole_place { (clients.client_of (examples.begun_whole 2)).place ≡ machine.InWhole (rows.soa 3) }
    ensures apart { outcomes.outcome (examples.whole_in_two 1) ≡ outcomes.RetrySignal }
    ensures two_soas { outcomes.outcome (examples.course Ixfr type_ixfr (rows.zone (rows.soa 1 ∷ [])) (examples.reply type_ixfr (rows.soa 2 ∷ rows.soa 2 ∷ []) ∷ [])) ≡ outcomes.Updated }
    ensures two_soas_made { outcomes.made (examples.course Ixfr type_ixfr (rows.zone (rows.soa 1 ∷ [])) (examples.reply type_ixfr (rows.soa 2 ∷ rows.soa 2 ∷ []) ∷ [])) ≡ rows.zone (rows.soa 2 ∷ []) ∷ [] }
{}

/// Three batches, one to a message: what is made of the first, of two and of all, and where the client then stands; and a second batch of which a deletion is refused, since
/// the record isn't there or its name isn't in the zone.
pub fn batch_row()
    ensures made { map outcomes.made (examples.batches_course 1 ∷ examples.batches_course 2 ∷ examples.batches_course 3 ∷ []) ≡ (rows.history_1 ∷ []) ∷ (rows.history_1 ∷ rows.history_2 ∷ []) ∷ (rows.history_1 ∷ rows.history_2 ∷ rows.history_3 ∷ examples.history_4 ∷ []) ∷ [] }
    ensures met { map (λ c. (clients.client_of c).met) (examples.batches_course 1 ∷ examples.batches_course 2 ∷ examples.batches_course 3 ∷ []) ≡ None ∷ None ∷ Some outcomes.Updated ∷ [] }
    ensures place { map (λ c. (clients.client_of c).place) (examples.batches_course 0 ∷ examples.batches_course 1 ∷ examples.refused_batch (rows.address rows.jain 4) ∷ examples.batches_course 3 ∷ []) ≡ machine.AtStart ∷ machine.InAdds (rows.soa 4) ∷ machine.InDeletes (rows.soa 4) ∷ machine.AtEnd ∷ [] }
    ensures deleted { (clients.client_of (examples.refused_batch (rows.address rows.jain 4))).met ≡ None }
    ensures missing { outcomes.outcome (examples.refused_batch (rows.address rows.jain 9)) ≡ outcomes.Reading (reads.Refused Incompatible) }
    ensures outside { outcomes.outcome (examples.refused_batch (rows.address (rows.other []) 4)) ≡ outcomes.Reading (reads.Refused OutOfZone) }
    ensures refused_made { map outcomes.made (examples.refused_batch (rows.address rows.jain 9) ∷ examples.refused_batch (rows.address (rows.other []) 4) ∷ []) ≡ (rows.history_1 ∷ rows.history_2 ∷ []) ∷ (rows.history_1 ∷ rows.history_2 ∷ []) ∷ [] }
{}

/// How a client ends: with a first message and a later one; with a fault, unless a record was refused; with another id; and what it met stays.
pub fn end_row()
    ensures later { (clients.client_of (examples.course Axfr type_axfr rows.history_1 (examples.reply type_axfr (rows.soa 2 ∷ []) ∷ examples.later_reply (rows.address rows.nezu 1 ∷ rows.soa 2 ∷ []) ∷ []))).met ≡ Some outcomes.Updated }
    ensures after_end { (clients.client_of (examples.course Axfr type_axfr rows.history_1 (examples.reply type_axfr (rows.soa 2 ∷ rows.soa 2 ∷ rows.soa 2 ∷ []) ∷ []))).met ≡ Some (outcomes.Reading reads.AfterEnd) }
    ensures refused { (clients.client_of examples.refused_and_behind).met ≡ Some (outcomes.Reading (reads.Refused Incompatible)) }
    ensures other_id { (clients.client_of (record (examples.history_course 0) { id = 1001 })).met ≡ Some (outcomes.Reading reads.OtherAnswer) }
    ensures stays { (clients.client_of (examples.course Axfr type_axfr rows.history_1 (examples.reply type_axfr (rows.soa 2 ∷ rows.soa 2 ∷ []) ∷ examples.later_reply (rows.soa 2 ∷ []) ∷ []))).met ≡ Some outcomes.Updated }
{}

/// What the ends of a transfer come to: the room of a message, whether its second record comes in the first, and whether there is one between SOAs.
pub fn ends_row()
    ensures room { granting.message_room examples.small_ends ≡ 65434 }
    ensures together { map granting.begins_together (examples.small_ends ∷ examples.edge_ends ∷ examples.caught_up_ends ∷ examples.compatible_ends ∷ []) ≡ true ∷ true ∷ true ∷ true ∷ [] }
    ensures apart { granting.begins_together (record examples.small_ends { signature_len = 65460 }) ≡ false }
    ensures singles { map (λ m. granting.in_singles m true) (Axfr ∷ Ixfr ∷ []) ≡ true ∷ false ∷ [] }
    ensures lone { granting.begins_together (record examples.caught_up_ends { signature_len = 65535 }) ≡ true }
    ensures more { map granting.has_more (examples.small_ends ∷ examples.caught_up_ends ∷ examples.two_soas_ends ∷ []) ≡ true ∷ true ∷ false ∷ [] }
{}

/// The premises of success can be met, and then what is sent spells the offered version.
pub fn granting_row()
    ensures met { granting.IsGranting examples.small_ends }
    ensures edge { granting.IsGranting examples.edge_ends }
    ensures caught_up { granting.IsGranting examples.caught_up_ends }
    ensures single { granting.IsGranting examples.single_ends }
    ensures compatible { granting.IsGranting examples.compatible_ends }
    ensures spelt { (spelling Ixfr (granting.sent_text examples.small_ends) rows.history_1).versions ≡ rows.history_1 ∷ rows.history_2 ∷ rows.history_3 ∷ [] }
    ensures whole { same_version rows.cut_zone rows.cut_zone ≡ true }
{}

/// They fail where the clocks are 301 seconds apart, a signature is too short, the request too long, or a number lacks; and where the secondary's version isn't one that the
/// primary can go on from.
pub fn unmet_row()
    ensures late { granting.IsGranting (record examples.small_ends { at_secondary = 1301 }) → ⊥ }
    ensures early { granting.IsGranting (record examples.small_ends { at_primary = 1601 }) → ⊥ }
    ensures short_request_mac { granting.IsGranting (record examples.small_ends { primary_wants = 33 }) → ⊥ }
    ensures short_answer_mac { granting.IsGranting (record examples.small_ends { secondary_wants = 33 }) → ⊥ }
    ensures long_request { granting.IsGranting (record examples.small_ends { request_len = 65536 }) → ⊥ }
    ensures no_number { granting.IsGranting (record examples.small_ends { number = 18446744073709551613 }) → ⊥ }
    ensures short_answers { granting.IsGranting (record examples.small_ends { primary_signs = 31 }) → ⊥ }
    ensures short_requests { granting.IsGranting (record examples.small_ends { secondary_signs = 31 }) → ⊥ }
    ensures ahead { granting.IsGranting (record examples.caught_up_ends { base = rows.zone (rows.soa 4 ∷ []) }) → ⊥ }
    ensures no_soa { granting.IsGranting (record examples.caught_up_ends { base = rows.empty_zone }) → ⊥ }
    ensures other_content { granting.IsGranting (record examples.caught_up_ends { base = rows.zone (rows.soa 3 ∷ []) }) → ⊥ }
    ensures not_first { granting.IsGranting (record examples.small_ends { base = rows.zone (rows.soa 1 ∷ []) }) → ⊥ }
    ensures other_apex { granting.IsGranting (record examples.single_ends { base = record rows.empty_zone { apex = rows.sub } }) → ⊥ }
    ensures other_class { granting.IsGranting (record examples.single_ends { base = record rows.empty_zone { class = 3 } }) → ⊥ }
    ensures no_one_soa { granting.IsGranting (record examples.single_ends { history = rows.empty_zone ∷ rows.cut_zone ∷ [] }) → ⊥ }
    ensures two_soas { granting.IsGranting examples.two_soas_ends → ⊥ }
    ensures apart { granting.IsGranting (record examples.small_ends { signature_len = 65460 }) → ⊥ }
{}

/// From octets to an outcome: a whole zone in one signed answer; the same with another octet, too late, unsigned, too short, or not there; under another id; in two
/// answers; with an unsigned end, with a signed answer behind it or none.
pub fn course_row()
    ensures updated { outcomes.outcome (courses.course_of (examples.handed 1000 outcomes.Ended (examples.whole_reply ∷ [])) rows.empty_zone 0) ≡ outcomes.Updated }
    ensures made { map (λ v. records_of_version v) (outcomes.made (courses.course_of (examples.handed 1000 outcomes.Ended (examples.whole_reply ∷ [])) rows.empty_zone 0)) ≡ (data_rows.ns_record ∷ data_rows.soa 1 ∷ data_rows.address 1 ∷ []) ∷ [] }
    ensures spoilt { outcomes.outcome (courses.course_of (examples.handed 1000 outcomes.Ended (examples.spoilt_reply ∷ [])) rows.empty_zone 0) ≡ outcomes.Tsig ValidationError.BadSig }
    ensures late { outcomes.outcome (courses.course_of (examples.handed 1301 outcomes.Ended (examples.whole_reply ∷ [])) rows.empty_zone 0) ≡ outcomes.Tsig ValidationError.BadTime }
    ensures unsigned { outcomes.outcome (courses.course_of (examples.handed 1000 outcomes.Ended (bare_reply ∷ [])) rows.empty_zone 0) ≡ outcomes.Tsig ValidationError.ServerUnsigned }
    ensures short { outcomes.outcome (courses.course_of (examples.handed 1000 outcomes.Ended ((1 ∷ 2 ∷ []) ∷ [])) rows.empty_zone 0) ≡ outcomes.Short }
    ensures unfinished { outcomes.outcome (courses.course_of (examples.handed 1000 outcomes.Ended (first_reply ∷ [])) rows.empty_zone 0) ≡ outcomes.Ended }
    ensures forwarded { outcomes.outcome (courses.course_of (examples.handed 1000 outcomes.Ended (examples.other_id_reply ∷ [])) rows.empty_zone 0) ≡ outcomes.Updated }
    ensures in_two { outcomes.outcome (courses.course_of (examples.handed 1000 outcomes.Ended examples.two_replies) rows.empty_zone 0) ≡ outcomes.Updated }
    ensures unsigned_end { outcomes.outcome (courses.course_of (examples.handed 1000 outcomes.Ended (first_reply ∷ examples.unsigned_end ∷ examples.reply_behind ∷ [])) rows.empty_zone 0) ≡ outcomes.Tsig ValidationError.TooManyUnsigned }
    ensures unsigned_tail { outcomes.outcome (courses.course_of (examples.handed 1000 outcomes.Ended (first_reply ∷ examples.unsigned_end ∷ [])) rows.empty_zone 0) ≡ outcomes.Tsig ValidationError.TooManyUnsigned }
    ensures failed { outcomes.outcome (courses.course_of (examples.handed 1000 outcomes.LinkFault []) rows.empty_zone 0) ≡ outcomes.LinkFault }
{}

/// One message can carry what that primary sends, or two, the first of two records or more and with a question. Then it succeeds, and without an end or under another
/// version it doesn't.
pub fn success_row()
    ensures one { CarrySent examples.small_ends 1000 examples.small_carrier [] }
    ensures two { CarrySent examples.small_ends 1000 (examples.first_carrier 2) (examples.second_carrier 2 ∷ []) }
    ensures alone { CarrySent examples.small_ends 1000 (examples.first_carrier 1) (examples.second_carrier 1 ∷ []) → ⊥ }
    ensures no_question { CarrySent examples.small_ends 1000 (examples.second_carrier 0) [] → ⊥ }
    ensures succeeds { Succeeds (sent_course examples.small_ends 1000 (examples.small_carrier ∷ []) outcomes.Ended) rows.history_3 }
    ensures unfinished { Succeeds (sent_course examples.small_ends 1000 (examples.first_carrier 2 ∷ []) outcomes.Ended) rows.history_1 → ⊥ }
    ensures number { (sent_course (record examples.small_ends { number = 7 }) 1000 [] outcomes.Ended).number ≡ 7 }
{}

/// Answers, signed and handed, are a course of them, whenever they are taken, and so they are where the client spells the key otherwise and
/// signs with half MACs.
#[tactic(auto, unfolding(crate::proofs::OnLiterals::course_on_literals))]
pub fn joined_row()
    ensures checked { (courses.course_of (signed_handed row_key row_key row_request 1000 300 1300 examples.two_answers outcomes.Ended) rows.empty_zone 0).checked ≡ map built_checked examples.two_answers }
    ensures stop { (courses.course_of (signed_handed row_key row_key row_request 1000 300 1301 examples.two_answers outcomes.Ended) rows.empty_zone 0).stop ≡ outcomes.Tsig ValidationError.BadTime }
    ensures one_key { (courses.course_of (signed_handed client_key server_key client_request 1000 300 1300 examples.two_answers outcomes.Ended) rows.empty_zone 0).checked ≡ map built_checked examples.two_answers }
    ensures page { length (carrier_of (reply (data_rows.soa 1 ∷ data_rows.ns_record ∷ []))).page ≡ 2 }
{}

/// A checked message has its original id; of one that doesn't parse the answers can't be read.
#[tactic(auto, unfolding(crate::proofs::OnLiterals::course_on_literals))]
pub fn message_row()
    ensures original_id { (courses.checked_message examples.other_id_reply).message.header.id ≡ 1000 }
    ensures unreadable { (courses.read_message examples.lacks_question).answers ≡ None ∷ [] }
    ensures rest { courses.read_message examples.lacks_authority ≡ record (replies.reply type_axfr []) { header = record replies.transfer_header { aa = false }; answers = None ∷ []; authority = 1 } }
{}

/// What a request asks: its mode, its id, and the number from which versions are counted.
#[tactic(auto, unfolding(crate::proofs::OnLiterals::course_on_literals))]
pub fn request_row()
    ensures whole { courses.request_mode row_request ≡ Axfr }
    ensures changes { courses.request_mode (message_wire ixfr_query) ≡ Ixfr }
    ensures id { (courses.course_of (record (examples.handed 1000 outcomes.Ended []) { request = examples.lacks_question }) rows.empty_zone 7).id ≡ 0 }
    ensures number { (courses.course_of (examples.handed 1000 outcomes.Ended []) rows.empty_zone 7).number ≡ 7 }
{}

/// Replies: those before the first without a header are taken, and at most so many; a fault of a signature comes before a short reply, and that before too many.
pub fn reply_row()
    ensures before_short { courses.replies_taken (examples.bare_header ∷ examples.two_octets ∷ examples.bare_header ∷ []) ≡ examples.bare_header ∷ [] }
    ensures eleven { courses.replies_taken (examples.eleven_octets ∷ []) ≡ [] }
    ensures signature { courses.stop_after outcomes.Ended (examples.two_octets ∷ []) (Some ValidationError.BadSig) ≡ outcomes.Tsig ValidationError.BadSig }
    ensures short { courses.stop_after outcomes.Ended (examples.two_octets ∷ replicate 65536 examples.bare_header) None ≡ outcomes.Short }
    ensures too_many { courses.stop_after outcomes.Ended (replicate 65536 examples.bare_header) None ≡ outcomes.TooManyMessages }
    ensures short_behind { courses.stop_after outcomes.Ended (replicate 65536 examples.bare_header ++ examples.two_octets ∷ []) None ≡ outcomes.TooManyMessages }
    ensures not_too_many { courses.stop_after outcomes.Ended (replicate 65535 examples.bare_header) None ≡ outcomes.Ended }
    ensures most { length (courses.replies_taken (replicate 65537 examples.bare_header)) ≡ 65536 }
{}
