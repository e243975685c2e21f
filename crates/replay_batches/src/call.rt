// A call of a script: read from a line's words.
// A call that takes data or a message has its bytes, which are made in a lent space.
use crate::place::Place;
use bank::Piece;
use replay_text::{Fault, ROOM, Words};

#[derive(Clone, Copy)]
pub enum Call<'a> {
    Job(JobCall<'a>),
    Bank(BankCall<'a>),
}

#[derive(Clone, Copy)]
pub enum JobCall<'a> {
    New {
        place: Place,
        start: usize,
        length: usize,
        bytes: &'a [u8],
    },
    Run {
        used: usize,
        bytes: &'a [u8],
    },
    Hash(Place),
    Held(&'a [u8]),
}

#[derive(Clone, Copy)]
pub enum BankCall<'a> {
    New,
    Open(usize),
    Update { slot: usize, message: &'a [u8] },
    Close(usize),
    Piece(Place, Piece),
    UpdateMany { used: usize, bytes: &'a [u8] },
    UpdateLent { used: usize, bytes: &'a [u8] },
    Digest(usize),
    DigestTo { slot: usize, length: usize },
    Count(usize),
}

impl<'a> Call<'a> {
    pub fn read(mut words: Words<'_>, space: &'a mut [u8]) -> Result<Self, Fault> {
        Ok(match words.next_word() {
            b"job" => Call::Job(JobCall::read(words, space)?),
            b"bank" => Call::Bank(BankCall::read(words, space)?),
            _ => return Err(Fault::Command),
        })
    }
}

impl<'a> JobCall<'a> {
    fn read(mut words: Words<'_>, space: &'a mut [u8]) -> Result<Self, Fault> {
        Ok(match words.next_word() {
            b"new" => JobCall::New {
                place: Place::read(&mut words)?,
                start: words.number(u64::MAX)? as usize,
                length: words.number(u64::MAX)? as usize,
                bytes: words.message(space)?,
            },
            b"run" => JobCall::Run {
                used: words.number(u64::MAX)? as usize,
                bytes: words.message(space)?,
            },
            b"hash" => JobCall::Hash(Place::read_last(words)?),
            b"held" => JobCall::Held(words.message(space)?),
            _ => return Err(Fault::Command),
        })
    }
}

fn read_piece(mut words: Words<'_>) -> Result<Piece, Fault> {
    Ok(Piece {
        slot: words.number(u64::MAX)? as usize,
        start: words.number(u64::MAX)? as usize,
        length: words.last_number(u64::MAX)? as usize,
    })
}

impl<'a> BankCall<'a> {
    fn read(mut words: Words<'_>, space: &'a mut [u8]) -> Result<Self, Fault> {
        Ok(match words.next_word() {
            b"new" => words.end(BankCall::New)?,
            b"open" => BankCall::Open(words.last_number(u64::MAX)? as usize),
            b"update" => BankCall::Update {
                slot: words.number(u64::MAX)? as usize,
                message: words.message(space)?,
            },
            b"close" => BankCall::Close(words.last_number(u64::MAX)? as usize),
            b"piece" => BankCall::Piece(Place::read(&mut words)?, read_piece(words)?),
            b"update_many" => BankCall::UpdateMany {
                used: words.number(u64::MAX)? as usize,
                bytes: words.message(space)?,
            },
            b"update_lent" => BankCall::UpdateLent {
                used: words.number(u64::MAX)? as usize,
                bytes: words.message(space)?,
            },
            b"digest" => BankCall::Digest(words.last_number(u64::MAX)? as usize),
            b"digest_to" => BankCall::DigestTo {
                slot: words.number(u64::MAX)? as usize,
                length: words.last_number(ROOM as u64)? as usize,
            },
            b"count" => BankCall::Count(words.last_number(u64::MAX)? as usize),
            _ => return Err(Fault::Command),
        })
    }
}
