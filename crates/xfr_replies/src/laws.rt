// Laws of pages, each the contract of a function with an empty body.
ghost use Rattle.std.specs.Prelude.{◌≡◌, ◌≢◌, ℕ, Bool, true, false, List, [], ◌∷◌, ◌++◌, nat_le, All, Option, Some, None, Ok, if◌then◌else◌};
ghost use Rattle.dns_wire.specs.Wire.{Building, message_wire, fits};
ghost use Rattle.dns_rdata.specs.Records.{Record};
ghost use Rattle.zone_model.specs.Offer.{room_of, IsCutInto};
ghost use Rattle.xfr_batch.specs.Batches.{IsBegun, has_room};
ghost use Rattle.xfr_batch.specs.BatchSteps.{Tries};
ghost use Rattle.xfr_batch.specs.ReadyMessages.{Kept};
ghost use Rattle.xfr_batch.specs.XfrBatches.{transfer_begins, transfer_is_full};
ghost use Rattle.xfr_batch.specs.declared.batcher.PushResult.TheVariants.{NotPushedMessageFull, PushedAndLimitReached};
ghost use Rattle.xfr_services.specs.Items.{Sending};
ghost use Rattle.xfr_replies.specs.PagedReplies.{TransferSends};
ghost use Rattle.xfr_replies.specs.TransferPages.{page_answer, page_message, page_room, sendable, EndsBefore, FirstPage};

/// A page that is within its room, and has none for what stands behind it, is the first of any cut.
pub fn full_pages_come_first()
    ensures full { (room : ℕ) (page rest : List Record) (pages : List (List Record)) → page ≢ [] → nat_le (room_of page) room ≡ true
        → EndsBefore room page rest → IsCutInto room false (page ++ rest) pages → FirstPage room false page rest pages }
    ensures single { (room : ℕ) (r : Record) (rest : List Record) (pages : List (List Record)) → IsCutInto room true (r ∷ rest) pages
        → FirstPage room true (r ∷ []) rest pages }
    ensures none { (room : ℕ) (singles : Bool) (pages : List (List Record)) → IsCutInto room singles [] pages → pages ≡ [] }
{}

/// What can be sent of a text can be cut into pages in just one way.
pub fn texts_have_one_cut()
    ensures some { (room : ℕ) (singles : Bool) (text : List Record)
        → (pages : List (List Record)) × IsCutInto room singles (sendable room text) pages }
    ensures one { (room : ℕ) (singles : Bool) (text : List Record) (pages others : List (List Record))
        → IsCutInto room singles text pages → IsCutInto room singles text others → pages ≡ others }
{}

/// Of each text something is sent in answer to a request, and just one thing.
pub fn transfers_send_one_thing()
    ensures some { (request : List ℕ) (limit : ℕ) (singles : Bool) (text : List Record)
        → (items : List Sending) × TransferSends request limit singles text items }
    ensures one { (request : List ℕ) (limit : ℕ) (singles : Bool) (text : List Record) (items others : List Sending)
        → TransferSends request limit singles text items → TransferSends request limit singles text others → items ≡ others }
{}

/// A transfer's message has room for a page exactly where the page is within the room that the limit leaves beside header and question.
pub fn messages_have_room_for_pages()
    ensures { (s : Kept) (request : List ℕ) (limit : ℕ) (page : List Record) → s.soft_byte_limit ≡ Some limit → page ≢ []
        → has_room (transfer_begins s request) page ≡ nat_le (room_of page) (page_room request limit) }
{}

/// A message that is given back is the first page of any cut of the text that begins with what was begun: one that has no room for the
/// next record, or has as many records as it may have with that.
pub fn messages_given_back_are_first_pages()
    ensures full { (s : Kept) (request : List ℕ) (limit : ℕ) (singles : Bool) (answer new : Option Building) (m : Building)
        (begun rest : List Record) (r : Record) (pages : List (List Record))
        → s.soft_byte_limit ≡ Some limit → s.hard_rr_limit ≡ (if singles then Some 1 else None)
        → IsBegun (transfer_begins s request) (transfer_is_full s) begun answer
        → Tries (transfer_begins s request) (transfer_is_full s) r begun answer (Ok (NotPushedMessageFull m)) new
        → IsCutInto (page_room request limit) singles (sendable (page_room request limit) (begun ++ r ∷ rest)) pages
        → (m ≡ page_message request limit begun)
        × FirstPage (page_room request limit) singles begun (sendable (page_room request limit) (r ∷ rest)) pages }
    ensures limited { (s : Kept) (request : List ℕ) (limit : ℕ) (singles : Bool) (answer new : Option Building) (m : Building)
        (begun rest : List Record) (r : Record) (pages : List (List Record))
        → s.soft_byte_limit ≡ Some limit → s.hard_rr_limit ≡ (if singles then Some 1 else None)
        → IsBegun (transfer_begins s request) (transfer_is_full s) begun answer
        → Tries (transfer_begins s request) (transfer_is_full s) r begun answer (Ok (PushedAndLimitReached m)) new
        → IsCutInto (page_room request limit) singles (sendable (page_room request limit) ((begun ++ r ∷ []) ++ rest)) pages
        → (m ≡ page_message request limit (begun ++ r ∷ []))
        × FirstPage (page_room request limit) singles (begun ++ r ∷ []) (sendable (page_room request limit) rest) pages }
{}

/// The message of each page of a text is within the limit, and within 65,535 octets.
pub fn messages_are_within_the_limit()
    ensures { (request : List ℕ) (limit : ℕ) (singles : Bool) (text : List Record) (pages : List (List Record))
        → IsCutInto (page_room request limit) singles text pages
        → All (λ page. fits limit (message_wire (page_answer request page)) ≡ true) pages }
{}
