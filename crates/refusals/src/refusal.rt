// Why a call is refused: an error for each of document 01's numbers, in its order.
// A batch's refusal says as well which record or job it is.
ghost use Rattle.std.specs.Prelude.{◌≡◌, Some};
ghost use Rattle.refusals.specs.Answers.{number_of, number_in};
ghost use Rattle.refusals.specs.Texts.{text_of, batch_text_of};

use std::error::Error;
use std::fmt;

#[derive(Clone, Copy, Debug, PartialEq, Eq, Hash)]
pub enum Refusal {
    DigestLength = 1,
    KeyLength = 2,
    SaltLength = 3,
    PersonalLength = 4,
    InnerLength = 5,
    Total = 6,
    Slot = 7,
    Closed = 8,
    Piece = 9,
    Batch = 10,
    Output = 11,
    Unfinished = 12,
    Open = 13,
    Record = 14,
}

impl Refusal {
    // Document 01's number.
    pub fn number(self) -> u8
        ensures { result ≡ number_of self }
    {
        self as u8
    }
}

// What is told where an answer is a number alone: 0, or the refusal's.
pub fn number_in<T>(answer: &Result<T, Refusal>) -> u8
    ensures { result ≡ number_in answer.now }
{
    match answer {
        Ok(_) => 0,
        Err(refusal) => refusal.number(),
    }
}

impl fmt::Display for Refusal {
    ghost output = { λ e. Some (text_of e) };

    fn fmt<W: fmt::Write>(&self, f: &mut fmt::Formatter<W>) -> fmt::Result {
        f.write_str(match self {
            Refusal::DigestLength => "the digest length is 0 or over 64",
            Refusal::KeyLength => "the key is over 64 bytes",
            Refusal::SaltLength => "the salt is over 16 bytes",
            Refusal::PersonalLength => "the personalization is over 16 bytes",
            Refusal::InnerLength => "the inner length is over 64",
            Refusal::Total => "the total would pass the limit",
            Refusal::Slot => "the slot number is over 15",
            Refusal::Closed => "the slot is not open",
            Refusal::Piece => "the piece does not lie inside its data",
            Refusal::Batch => "there are more than 16 records or jobs",
            Refusal::Output => "the output is shorter than what is to be written",
            Refusal::Unfinished => "a digest is asked of an unfinished job",
            Refusal::Open => "the slot is open already",
            Refusal::Record => "a record breaks its stated range",
        })
    }
}

impl Error for Refusal {}

// Of the first bad record or job of a batch, and its index: 0 where the batch as a whole is refused.
#[derive(Clone, Copy, Debug, PartialEq, Eq, Hash)]
pub struct BatchRefusal {
    pub refusal: Refusal,
    pub index: usize,
}

impl fmt::Display for BatchRefusal {
    ghost output = { λ e. Some (batch_text_of e) };

    fn fmt<W: fmt::Write>(&self, f: &mut fmt::Formatter<W>) -> fmt::Result {
        write!(f, "{} at index {}", self.refusal, self.index)
    }
}

impl Error for BatchRefusal {}
