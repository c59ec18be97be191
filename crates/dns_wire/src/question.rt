// Entries of the question section (RFC 1035, 4.1.2).

ghost use Rattle.std.specs.Prelude.{◌≡◌, ◌++◌, OnOk, OnErr, IfOk, Some, None, vec_len};
ghost use Rattle.dns_wire.specs.Wire.{question_wire};
ghost use Rattle.dns_wire.specs.Parse.{question_at};

use dns_name::{Labelled, ParseError, ParsedName, parse_u16};
use dns_numbers::{Class, Rtype};
use std::alloc::AllocError;
use std::marker::Model;

/// A question: a name, and the type and the class of the records that are asked for (RFC 1035, 4.1.2).
#[derive(Drop)]
pub struct Question<N: Labelled> {
    qname: N,
    qtype: Rtype,
    qclass: Class,
}

impl<N: Labelled> Model for Question<N> {
    ghost use Rattle.dns_wire.specs.Wire.{Question as QuestionParts};

    ghost Value = { QuestionParts };

    ghost view = { λ q. record { qname = N.labels q.qname; qtype = q.qtype; qclass = q.qclass } };
}

impl<N: Labelled> Question<N> {
    /// The question for records of that name, type and class.
    pub fn new(qname: N, qtype: Rtype, qclass: Class) -> Question<N>
        ensures { result ≡ record { qname = N.labels qname; qtype = qtype; qclass = qclass } }
    {
        Question {
            qname,
            qtype,
            qclass,
        }
    }

    /// The name.
    pub fn qname(&self) -> &N
        ensures { N.labels result.now ≡ self.now.qname }
    {
        &self.qname
    }

    /// The type.
    pub fn qtype(&self) -> Rtype
        ensures { result ≡ self.now.qtype }
    {
        self.qtype
    }

    /// The class.
    pub fn qclass(&self) -> Class
        ensures { result ≡ self.now.qclass }
    {
        self.qclass
    }

    /// Appends the question as it is sent: the name without compression, then type and class in two octets each
    /// (RFC 1035, 4.1.2). Where memory runs out `out` is as before.
    pub fn compose(&self, out: &mut Vec<u8>) -> Result<(), AllocError>
        ensures ok { OnOk result (out.new.items ≡ out.old.items ++ question_wire self.now) }
        ensures err { OnErr result (out.new.items ≡ out.old.items) }
    {
        let before = out.len();
        self.qname.compose(out)?;
        let [type_high, type_low] = self.qtype.to_int().to_be_bytes();
        let [class_high, class_low] = self.qclass.to_int().to_be_bytes();
        let ends = out.extend_from_slice(&[type_high, type_low, class_high, class_low]);
        if ends.is_err() {
            out.truncate(before);
        }
        ends
    }
}

impl<'m> Question<ParsedName<'m>> {
    /// The question at place `pos` of a message, and the place after it (RFC 1035, 4.1.2).
    #[tactic(auto, unfolding(crate::specs::Parse::question_at))]
    pub fn parse(
        message: &'m [u8],
        pos: usize,
    ) -> Result<(Question<ParsedName<'m>>, usize), ParseError>
        ensures found { IfOk result (λ q. question_at message.now pos ≡ Some q) }
        ensures none { OnErr result (question_at message.now pos ≡ None) }
    {
        let (qname, place) = ParsedName::parse(message, pos)?;
        let (qtype, place) = parse_u16(message, place)?;
        let (qclass, after) = parse_u16(message, place)?;
        let question = Question::new(qname, Rtype::from_int(qtype), Class::from_int(qclass));
        Ok((question, after))
    }
}
