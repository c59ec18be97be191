// Laws of the definitions, each the contract of a function with an empty body.
ghost use Rattle.std.specs.Prelude.{◌≡◌, []};
ghost use Rattle.dns_wire.specs.Wire.{Question};
ghost use Rattle.zone_model.specs.Version.{Version};
ghost use Rattle.zone_model.specs.Answer.{Answer, answer_section, authority_section, glue_section};
ghost use Rattle.zone_lookup.specs.Sending.{answers_of, authority_of, required_of, discardable_of};
ghost use Rattle.zone_lookup.specs.Answers.{answered_by};
ghost use Rattle.zone_lookup.specs.Owned.{HasOneCname, reply_of};

/// The reply that says an answer has the records that the answer lends, section by section, where the question is asked in the zone's class; none of
/// them may be left out without a word. Of an alias, that is so where it has one record.
pub fn replies_say_what_is_lent()
    ensures answers { (v : Version) (q : Question) (a : Answer) → q.qclass ≡ v.class → HasOneCname a
        → answers_of q (reply_of (answered_by v a)) ≡ answer_section v q.qname a }
    ensures authority { (v : Version) (q : Question) (a : Answer) → q.qclass ≡ v.class
        → authority_of q (reply_of (answered_by v a)) ≡ authority_section v a }
    ensures required { (v : Version) (a : Answer) → required_of (reply_of (answered_by v a)) ≡ glue_section v a }
    ensures discardable { (v : Version) (a : Answer) → discardable_of (reply_of (answered_by v a)) ≡ [] }
{}
