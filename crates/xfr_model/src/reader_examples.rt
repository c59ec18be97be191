// Worked examples of reading the records of messages, proved by computation.
ghost use Rattle.std.specs.Prelude.{◌≡◌, [], ◌∷◌, Some, None};
ghost use Rattle.dns_numbers.specs.Codes.{type_axfr, type_ixfr};
ghost use Rattle.zone_model.specs.TransferText.{Axfr, Ixfr};
ghost use Rattle.zone_model.specs.Updates as updates;
ghost use Rattle.zone_model.specs.ZoneRows as rows;
ghost use Rattle.xfr_model.specs.Read as reads;
ghost use Rattle.xfr_model.specs.Machine as machines;
ghost use Rattle.xfr_model.specs.ReplyRows as replies;

/// The machine on small texts: equal SOAs, three SOAs in a row, an SOA like the first where adds begin, a whole text in answer to an incremental question, an SOA of another owner.
pub fn machine_row()
    ensures equal { (machines.run Ixfr machines.AtStart (rows.soa 2 ∷ rows.soa 2 ∷ [])).updates ≡ updates.Finished (rows.soa 2) ∷ [] }
    ensures three { (machines.run Ixfr machines.AtStart (rows.soa 3 ∷ rows.soa 1 ∷ rows.soa 2 ∷ rows.soa 3 ∷ [])).updates ≡ updates.BeginBatchDelete (rows.soa 1) ∷ updates.BeginBatchAdd (rows.soa 2) ∷ updates.Finished (rows.soa 3) ∷ [] }
    ensures no_end { machines.run Ixfr machines.AtStart (rows.soa 3 ∷ rows.soa 1 ∷ rows.soa 3 ∷ []) ≡ machines.went (machines.InAdds (rows.soa 3)) (updates.BeginBatchDelete (rows.soa 1) ∷ updates.BeginBatchAdd (rows.soa 3) ∷ []) }
    ensures whole { machines.run Ixfr machines.AtStart (rows.soa 2 ∷ rows.address rows.t 1 ∷ rows.soa 1 ∷ rows.soa 2 ∷ []) ≡ machines.went machines.AtEnd (updates.DeleteAllRecords ∷ updates.AddRecord (rows.address rows.t 1) ∷ updates.AddRecord (rows.soa 1) ∷ updates.Finished (rows.soa 2) ∷ []) }
    ensures empty { machines.run Axfr machines.AtStart (rows.soa 2 ∷ rows.soa 2 ∷ []) ≡ machines.went machines.AtEnd (updates.DeleteAllRecords ∷ updates.Finished (rows.soa 2) ∷ []) }
    ensures owner { machines.run Axfr machines.AtStart (rows.soa 2 ∷ record (rows.soa 2) { owner = rows.sub } ∷ []) ≡ machines.went machines.AtEnd (updates.DeleteAllRecords ∷ updates.Finished (record (rows.soa 2) { owner = rows.sub }) ∷ []) }
    ensures behind { (machines.run Axfr machines.AtStart (rows.soa 2 ∷ rows.soa 2 ∷ rows.soa 2 ∷ [])).fault ≡ Some reads.AfterEnd }
{}

/// Items of a message after the end, and the retry signal.
pub fn reader_row()
    ensures unreadable { (machines.run_items Axfr machines.AtStart (reads.Good (rows.soa 2) ∷ reads.Good (rows.soa 2) ∷ reads.Bad reads.Unreadable ∷ [])).fault ≡ Some reads.Unreadable }
    ensures first { (machines.run_items Axfr machines.AtStart (reads.Good (rows.soa 2) ∷ reads.Good (rows.soa 2) ∷ reads.Good (rows.soa 2) ∷ reads.Bad reads.Unreadable ∷ [])).fault ≡ Some reads.AfterEnd }
    ensures lone { (machines.take_messages Ixfr reads.message_fault machines.new_reader ((replies.reply type_ixfr (rows.soa 1 ∷ [])) ∷ [])).signal ≡ Some 1 }
    ensures two { (machines.take_messages Ixfr reads.message_fault machines.new_reader ((replies.reply type_ixfr (rows.soa 1 ∷ rows.soa 1 ∷ [])) ∷ [])).signal ≡ None }
    ensures axfr { (machines.take_messages Axfr reads.message_fault machines.new_reader ((replies.reply type_axfr (rows.soa 1 ∷ [])) ∷ [])).signal ≡ None }
    ensures later { (machines.take_messages Axfr reads.message_fault machines.new_reader ((replies.reply type_axfr (rows.soa 1 ∷ [])) ∷ (replies.reply type_axfr (rows.soa 1 ∷ [])) ∷ (replies.reply type_axfr (rows.soa 1 ∷ [])) ∷ [])).told ≡ updates.DeleteAllRecords ∷ updates.Finished (rows.soa 1) ∷ [] }
{}
