// The sections of a message, read one item at a time (RFC 1035, 4.1).

ghost use Rattle.std.specs.Prelude.{◌≡◌, ◌<◌, ◌^◌, ℕ, length, Some, None, IfOk, OnErr};
ghost use Rattle.dns_rdata.specs.Heads.{raw_record_at};
ghost use Rattle.dns_wire.specs.Parse.{question_at, after_items, readings};
ghost use Rattle.dns_wire.specs.Reads.{NextReading, NextQuestion};

use crate::question::Question;
use dns_name::{ParseError, ParsedName};
use dns_rdata::ParsedRecord;
use std::marker::Model;

/// The questions of a message that are left to read. After one that can't be read nothing is left.
#[derive(Drop)]
pub struct QuestionSection<'m> {
    message: &'m [u8],
    pos: usize,
    left: u16,
}

impl<'m> Model for QuestionSection<'m> {
    ghost use Rattle.dns_wire.specs.Parse.{question_at, readings};
    ghost use Rattle.dns_wire.specs.Reads.{QuestionsIn};

    ghost Value = { QuestionsIn };

    ghost view = { λ s. record { message = s.message.now; left = readings (question_at s.message.now) s.left s.pos } };
}

impl<'m> QuestionSection<'m> {
    /// So many questions from place `pos` on.
    pub(crate) fn new(message: &'m [u8], pos: usize, left: u16) -> QuestionSection<'m>
        ensures { result ≡ record { message = message.now; left = readings (question_at message.now) left pos } }
    {
        QuestionSection { message, pos, left }
    }

    /// The next question; `None` where none is left; or the error, after which none is left.
    #[tactic(auto, using(crate::proofs::Items::readings_zero, crate::proofs::Items::readings_more, crate::proofs::Items::readings_none))]
    pub fn next_question(&mut self) -> Option<Result<Question<ParsedName<'m>>, ParseError>>
        ensures { NextQuestion self.old result self.new }
    {
        if self.left == 0 {
            return None;
        }
        match Question::parse(self.message, self.pos) {
            Ok((question, after)) => {
                self.pos = after;
                self.left -= 1;
                Some(Ok(question))
            }
            Err(error) => {
                self.left = 0;
                Some(Err(error))
            }
        }
    }
}

impl<'m> Iterator for QuestionSection<'m> {
    type Item = Result<Question<ParsedName<'m>>, ParseError>;

    ghost use Rattle.std.specs.Prelude.{length};
    ghost use Rattle.std.specs.Iterator.{at_most};
    ghost use Rattle.dns_wire.specs.Reads.{NextQuestion};

    ghost next_gives = { λ s r t. NextQuestion s r t };

    ghost remaining = { λ s. at_most (length s.left) };

    fn next(&mut self) -> Option<Result<Question<ParsedName<'m>>, ParseError>> {
        self.next_question()
    }
}

/// The records of a section that are left to read, each by its head and RDLENGTH alone. After one that can't be read
/// nothing is left.
#[derive(Drop)]
pub struct RecordSection<'m> {
    message: &'m [u8],
    pos: usize,
    left: u16,
}

impl<'m> Model for RecordSection<'m> {
    ghost use Rattle.dns_rdata.specs.Heads.{raw_record_at};
    ghost use Rattle.dns_wire.specs.Parse.{SectionIn, readings};

    ghost Value = { SectionIn };

    ghost view = { λ s. record { message = s.message.now; left = readings (raw_record_at s.message.now) s.left s.pos } };
}

impl<'m> RecordSection<'m> {
    /// So many records from place `pos` on.
    #[tactic(auto, using(crate::proofs::Items::few_readings))]
    pub(crate) fn new(message: &'m [u8], pos: usize, left: u16) -> RecordSection<'m>
        ensures value { result ≡ record { message = message.now; left = readings (raw_record_at message.now) left pos } }
        ensures few { length result.left < 2 ^ 16 }
    {
        RecordSection { message, pos, left }
    }

    /// The next record; `None` where none is left; or the error, after which none is left.
    #[tactic(auto, using(crate::proofs::Items::readings_zero, crate::proofs::Items::readings_more, crate::proofs::Items::readings_none))]
    pub fn next_record(&mut self) -> Option<Result<ParsedRecord<'m>, ParseError>>
        ensures { NextReading self.old result self.new }
    {
        if self.left == 0 {
            return None;
        }
        match ParsedRecord::parse(self.message, self.pos) {
            Ok((record, after)) => {
                self.pos = after;
                self.left -= 1;
                Some(Ok(record))
            }
            Err(error) => {
                self.left = 0;
                Some(Err(error))
            }
        }
    }
}

impl<'m> Iterator for RecordSection<'m> {
    type Item = Result<ParsedRecord<'m>, ParseError>;

    ghost use Rattle.std.specs.Prelude.{length};
    ghost use Rattle.std.specs.Iterator.{at_most};
    ghost use Rattle.dns_wire.specs.Reads.{NextReading};

    ghost next_gives = { λ s r t. NextReading s r t };

    ghost remaining = { λ s. at_most (length s.left) };

    fn next(&mut self) -> Option<Result<ParsedRecord<'m>, ParseError>> {
        self.next_record()
    }
}

/// The place after `count` questions that stand one after another from place `pos` on.
#[tactic(auto, using(crate::proofs::Items::after_items_zero, crate::proofs::Items::after_items_more, crate::proofs::Items::after_items_none))]
pub(crate) fn after_questions(message: &[u8], count: u16, pos: usize) -> Result<usize, ParseError>
    ensures found { IfOk result (λ p. after_items (question_at message.now) count pos ≡ Some p) }
    ensures none { OnErr result (after_items (question_at message.now) count pos ≡ None) }
{
    let mut place = pos;
    let mut left = count;
    while left > 0 {
        let (_, after) = Question::parse(message, place)?;
        place = after;
        left -= 1;
    }
    Ok(place)
}

/// The place after `count` records that stand one after another from place `pos` on.
#[tactic(auto, using(crate::proofs::Items::after_items_zero, crate::proofs::Items::after_items_more, crate::proofs::Items::after_items_none))]
pub(crate) fn after_records(message: &[u8], count: u16, pos: usize) -> Result<usize, ParseError>
    ensures found { IfOk result (λ p. after_items (raw_record_at message.now) count pos ≡ Some p) }
    ensures none { OnErr result (after_items (raw_record_at message.now) count pos ≡ None) }
{
    let mut place = pos;
    let mut left = count;
    while left > 0 {
        let (_, after) = ParsedRecord::parse(message, place)?;
        place = after;
        left -= 1;
    }
    Ok(place)
}
