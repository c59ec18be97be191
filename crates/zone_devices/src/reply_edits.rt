//! Edits of the replies that a link in memory took.
ghost use Rattle.std.specs.Prelude.{◌≡◌, ◌+◌, ◌++◌, IfOk, OnOk, take, drop};
ghost use Rattle.zone_devices.specs.Edits.{octets_of, flipped, flipped_at, changed_at, swapped_at, edited_by, edited};

use std::alloc::{AllocError, Global};

/// One edit of the replies that a link took, which are numbered from 0. One that names a reply or an octet that isn't there
/// changes nothing.
#[derive(Drop)]
pub enum ReplyEdit {
    /// The lowest bit of one octet, numbered from 0, is flipped.
    Flip { reply: usize, octet: usize },
    /// A reply is cut to its first `len` octets.
    Cut { reply: usize, len: usize },
    /// A reply is left out.
    Drop { reply: usize },
    /// A reply comes twice.
    Repeat { reply: usize },
    /// Two replies change places.
    Swap { first: usize, second: usize },
    /// These come in place of all replies.
    Replace(Vec<Vec<u8>>),
}

impl ReplyEdit {
    /// Makes this edit; where there is no memory for it, the messages may be partly edited.
    fn apply(&self, alloc: Global, messages: &mut Vec<Vec<u8>>) -> Result<(), AllocError>
        ensures { OnOk result (octets_of messages.new.items ≡ edited_by self.now (octets_of messages.old.items)) }
    {
        match self {
            ReplyEdit::Flip { reply, octet } => flip(messages, *reply, *octet),
            ReplyEdit::Cut { reply, len } => cut(messages, *reply, *len),
            ReplyEdit::Drop { reply } => leave_out(messages, *reply),
            ReplyEdit::Repeat { reply } => repeat(alloc, messages, *reply)?,
            ReplyEdit::Swap { first, second } => swap(messages, *first, *second),
            ReplyEdit::Replace(list) => *messages = copies(alloc, list.as_slice())?,
        }
        Ok(())
    }
}

/// Copies of these messages, with all edits made in order.
pub(crate) fn edited_copies(
    alloc: Global,
    edits: &[ReplyEdit],
    messages: &[Vec<u8>],
) -> Result<Vec<Vec<u8>>, AllocError>
    ensures { IfOk result (λ v. octets_of v.items ≡ edited edits.now (octets_of messages.now)) }
{
    let mut made = copies(alloc, messages)?;
    for edit in edits {
        edit.apply(alloc, &mut made)?;
    }
    Ok(made)
}

fn copies(alloc: Global, messages: &[Vec<u8>]) -> Result<Vec<Vec<u8>>, AllocError>
    ensures { IfOk result (λ v. octets_of v.items ≡ octets_of messages.now) }
{
    let mut made = Vec::new(alloc);
    for message in messages {
        let copy = message.as_slice().to_vec(alloc)?;
        made.push(copy)?;
    }
    Ok(made)
}

fn flip_bit(octet: u8) -> u8
    ensures { result ≡ flipped octet }
{
    if octet % 2 == 0 { octet + 1 } else { octet - 1 }
}

fn flip_octet(message: &mut Vec<u8>, place: usize)
    ensures { message.new.items ≡ flipped_at place message.old.items }
{
    if place < message.len() {
        message[place] = flip_bit(message[place]);
    }
}

fn flip(messages: &mut Vec<Vec<u8>>, reply: usize, octet: usize)
    ensures { octets_of messages.new.items ≡ changed_at reply (flipped_at octet) (octets_of messages.old.items) }
{
    if reply < messages.len() {
        flip_octet(&mut messages[reply], octet);
    }
}

fn cut(messages: &mut Vec<Vec<u8>>, reply: usize, len: usize)
    ensures { octets_of messages.new.items ≡ changed_at reply (take len) (octets_of messages.old.items) }
{
    if reply < messages.len() {
        messages[reply].truncate(len);
    }
}

fn leave_out(messages: &mut Vec<Vec<u8>>, reply: usize)
    ensures { octets_of messages.new.items ≡ take reply (octets_of messages.old.items) ++ drop (reply + 1) (octets_of messages.old.items) }
{
    if reply < messages.len() {
        let _ = messages.remove(reply);
    }
}

fn repeat(alloc: Global, messages: &mut Vec<Vec<u8>>, reply: usize) -> Result<(), AllocError>
    ensures { OnOk result (octets_of messages.new.items ≡ take (reply + 1) (octets_of messages.old.items) ++ drop reply (octets_of messages.old.items)) }
{
    if reply < messages.len() {
        let copy = messages[reply].as_slice().to_vec(alloc)?;
        messages.insert(reply + 1, copy)?;
    }
    Ok(())
}

fn swap(messages: &mut Vec<Vec<u8>>, first: usize, second: usize)
    ensures { octets_of messages.new.items ≡ swapped_at first second (octets_of messages.old.items) }
{
    if first < messages.len() && second < messages.len() {
        messages.swap(first, second);
    }
}
