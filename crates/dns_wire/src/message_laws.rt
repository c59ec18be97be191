// Laws of the definitions, each the contract of a function with an empty body.
ghost use Rattle.std.specs.Prelude.{◌≡◌, ◌+◌, ◌<◌, ◌^◌, ◌++◌, ◌∷◌, [], ℕ, List, length, replicate, Some, IsTrue, ◌≤◌};
ghost use Rattle.dns_name.specs.Names.{is_name};
ghost use Rattle.dns_rdata.specs.Records.{Record, record_wire, is_data};
ghost use Rattle.dns_wire.specs.Wire.{Message, Header, Question, question_wire, header_of, header_wire, header_in, message_wire, in_answer, with_answer, with_additional, without_last_additional, arcount_in};
ghost use Rattle.dns_wire.specs.Numbers.{with_number};
ghost use Rattle.dns_wire.specs.Parse.{Parsed, question_at, parsed};
ghost use Rattle.dns_rdata.specs.Heads.{readable};
ghost use Rattle.dns_wire.specs.Written.{IsMessage, IsRecord, head_at, parsed_of};

/// A header that was written is read again.
pub fn headers_written_are_read()
    ensures { (h : Header) (after : List ℕ) → h.id < 2 ^ 16 → h.opcode < 16 → h.rcode < 16 → header_in (header_wire h ++ after) ≡ h }
{}

/// An id that was written is read again, and the flags are as they were.
pub fn ids_written_are_read()
    ensures { (message : List ℕ) (id : ℕ) → id < 2 ^ 16 → header_in (with_number 0 message id) ≡ record (header_in message) { id = id } }
{}

/// Twelve zero octets, with which a builder begins, are a message without items.
pub fn zeros_are_empty()
    ensures { message_wire (in_answer (header_of 0 0) [] []) ≡ replicate 12 0 }
{}

/// A record pushed onto the octets is one more record in the list.
pub fn pushed_is_listed()
    ensures { (h : Header) (qs : List Question) (rs : List Record) (r : Record) → length rs < 2 ^ 16
        → message_wire (in_answer h qs (rs ++ r ∷ [])) ≡ with_answer (message_wire (in_answer h qs rs)) r }
{}

/// An additional record pushed onto the octets is one more in the list.
pub fn pushed_additional_is_listed()
    ensures { (m : Message) (r : Record) → length m.additional < 2 ^ 16
        → message_wire (record m { additional = m.additional ++ r ∷ [] }) ≡ with_additional (message_wire m) r }
{}

/// A last additional record that is taken back is one fewer in the list, and its octets stand unread after the others. Where there is
/// none, nothing changes.
pub fn removed_is_unlisted()
    ensures octets { (m : Message) (r : Record) (after : List ℕ) → length m.additional < 65535
        → without_last_additional (message_wire (record m { additional = m.additional ++ r ∷ [] }) ++ after) ≡ message_wire m ++ (record_wire r ++ after) }
    ensures read { (m : Message) (r : Record) (after : List ℕ) → IsMessage m → length m.additional < 65535
        → parsed (without_last_additional (message_wire (record m { additional = m.additional ++ r ∷ [] }) ++ after)) ≡ Some (parsed_of m) }
    ensures none { (message : List ℕ) → 12 ≤ length message → arcount_in message ≡ 0 → without_last_additional message ≡ message }
{}

/// A question that was written is read again, wherever it stands.
pub fn questions_written_are_read()
    ensures { (before : List ℕ) (q : Question) (after : List ℕ) → IsTrue (is_name q.qname) → q.qtype < 2 ^ 16 → q.qclass < 2 ^ 16
        → question_at (before ++ (question_wire q ++ after)) (length before) ≡ Some (q, length before + length (question_wire q)) }
{}

/// A record that was written is read again with its data, wherever it stands.
pub fn records_written_are_read()
    ensures { (before : List ℕ) (r : Record) (after : List ℕ) → IsRecord r → IsTrue (is_data r.rtype r.fields)
        → readable (before ++ (record_wire r ++ after)) (head_at (length before) r) ≡ Some r }
{}

/// A message that was built parses to its items, whatever octets follow it.
pub fn messages_written_are_read()
    ensures { (m : Message) (after : List ℕ) → IsMessage m → parsed (message_wire m ++ after) ≡ Some (parsed_of m) }
{}

/// Octets after a message that parses aren't read: it parses to the same items with any octets after it.
pub fn octets_behind_are_unread()
    ensures { (message after : List ℕ) (p : Parsed) → parsed message ≡ Some p → parsed (message ++ after) ≡ Some p }
{}
