// The calls of a script that make the last digest, or show what is asked of it.
// An output that a call writes to is filled beforehand, so that untouched bytes are seen.
use crate::session::Session;
use crate::shown::{value_shown, written_shown};
use blake2b::Hash;
use hash::is_digest_length;
use refusals::Refusal;
use replay_text::{Answer, Fault, ROOM, Shown, Words};
use words::{read_words, write_words};

#[derive(Clone, Copy)]
pub enum DigestCall<'a> {
    Zero,
    FromBytes(&'a [u8; 64]),
    FromWords(usize, &'a [u8; 64]),
    Keep,
    Len,
    Equals,
    EqualsBytes(&'a [u8]),
    InRange,
    IsDigestLength(usize),
    // The writes, to an output of so many bytes, and the same with what is handed back as written.
    WriteBytes(usize),
    WriteHex(usize),
    WrittenBytes(usize),
    WrittenHex(usize),
}

fn sixty_four<'a>(words: Words<'_>, space: &'a mut [u8]) -> Result<&'a [u8; 64], Fault> {
    words.message(space)?.as_array().ok_or(Fault::Message)
}

impl<'a> DigestCall<'a> {
    pub(crate) fn read(mut words: Words<'_>, space: &'a mut [u8]) -> Result<Self, Fault> {
        Ok(match words.next_word() {
            b"zero" => words.end(DigestCall::Zero)?,
            b"from_bytes" => DigestCall::FromBytes(sixty_four(words, space)?),
            b"from_words" => {
                let length = words.number(u64::MAX)? as usize;
                DigestCall::FromWords(length, sixty_four(words, space)?)
            }
            b"keep" => words.end(DigestCall::Keep)?,
            b"len" => words.end(DigestCall::Len)?,
            b"equals" => words.end(DigestCall::Equals)?,
            b"equals_bytes" => DigestCall::EqualsBytes(words.message(space)?),
            b"in_range" => words.end(DigestCall::InRange)?,
            b"is_digest_length" => DigestCall::IsDigestLength(
                words.last_number(u64::MAX)? as usize,
            ),
            b"write_bytes" => DigestCall::WriteBytes(words.last_number(ROOM as u64)? as usize),
            b"write_hex" => DigestCall::WriteHex(words.last_number(ROOM as u64)? as usize),
            b"written_bytes" => DigestCall::WrittenBytes(words.last_number(ROOM as u64)? as usize),
            b"written_hex" => DigestCall::WrittenHex(words.last_number(ROOM as u64)? as usize),
            _ => return Err(Fault::Command),
        })
    }
}

// A digest of a length and the words of 64 bytes, which are read as the front of a block.
fn from_words(length: usize, bytes: &[u8; 64]) -> Result<Hash, Refusal> {
    let mut block = [0u8; 128];
    block[..64].copy_from_slice(bytes);
    let [a, b, c, d, e, f, g, h, ..] = read_words(&block);
    Hash::from_state(&write_words([a, b, c, d, e, f, g, h]), length)
}

// An output of so many bytes, at most all of the room.
fn output<'r>(length: usize, room: &'r mut [u8; ROOM]) -> &'r mut [u8] {
    room.fill(0xA5);
    room.get_mut(..length).unwrap_or_default()
}

impl Session {
    pub(crate) fn on_digest<'r>(
        &mut self,
        call: DigestCall<'_>,
        room: &'r mut [u8; ROOM],
    ) -> Answer<'r> {
        let last = self.last;
        match call {
            DigestCall::Zero => self.set_last(Ok(Hash::zero()), room),
            DigestCall::FromBytes(bytes) => self.set_last(Ok(Hash::from_bytes(*bytes)), room),
            DigestCall::FromWords(length, bytes) => self.set_last(from_words(length, bytes), room),
            DigestCall::Keep => {
                self.kept = last;
                Answer::accepted(Shown::Nothing)
            }
            DigestCall::Len => value_shown(last.len(), Shown::Length),
            DigestCall::Equals => value_shown(last.equals(self.kept), Shown::Equal),
            DigestCall::EqualsBytes(bytes) => value_shown(last.equals_bytes(bytes), Shown::Equal),
            DigestCall::InRange => Answer::accepted(Shown::Equal(last.in_range())),
            DigestCall::IsDigestLength(length) => Answer::accepted(Shown::Equal(is_digest_length(
                length,
            ))),
            DigestCall::WriteBytes(length) => {
                let output = output(length, room);
                written_shown(last.write_bytes(output), output)
            }
            DigestCall::WriteHex(length) => {
                let output = output(length, room);
                written_shown(last.write_hex(output), output)
            }
            DigestCall::WrittenBytes(length) => {
                let output = output(length, room);
                written_shown(last.write_bytes(output), last.written_bytes(output))
            }
            DigestCall::WrittenHex(length) => {
                let output = output(length, room);
                written_shown(last.write_hex(output), last.written_hex(output))
            }
        }
    }
}
