// A call of a script: read from a line's words.
// A call that takes a message has its bytes, which are made in a lent space.
use replay_text::{Fault, Words};

#[derive(Clone, Copy)]
pub enum Call<'a> {
    Params(ParamsCall<'a>),
    State(StateCall<'a>),
    Hash(&'a [u8]),
    Blake2bp(&'a [u8]),
}

#[derive(Clone, Copy)]
pub enum ParamsCall<'a> {
    New,
    HashLength(usize),
    Key(&'a [u8]),
    InRange,
}

#[derive(Clone, Copy)]
pub enum StateCall<'a> {
    New,
    Zero,
    Open,
    Update(&'a [u8]),
    Finalize,
    Count,
    LeafCount,
    Buffered,
    InRange,
}

impl<'a> Call<'a> {
    pub fn read(mut words: Words<'_>, space: &'a mut [u8]) -> Result<Self, Fault> {
        Ok(match words.next_word() {
            b"params" => Call::Params(ParamsCall::read(words, space)?),
            b"state" => Call::State(StateCall::read(words, space)?),
            b"hash" => Call::Hash(words.message(space)?),
            b"blake2bp" => Call::Blake2bp(words.message(space)?),
            _ => return Err(Fault::Command),
        })
    }
}

impl<'a> ParamsCall<'a> {
    fn read(mut words: Words<'_>, space: &'a mut [u8]) -> Result<Self, Fault> {
        Ok(match words.next_word() {
            b"new" => words.end(ParamsCall::New)?,
            b"hash_length" => ParamsCall::HashLength(words.last_number(u64::MAX)? as usize),
            b"key" => ParamsCall::Key(words.message(space)?),
            b"in_range" => words.end(ParamsCall::InRange)?,
            _ => return Err(Fault::Command),
        })
    }
}

impl<'a> StateCall<'a> {
    fn read(mut words: Words<'_>, space: &'a mut [u8]) -> Result<Self, Fault> {
        Ok(match words.next_word() {
            b"new" => words.end(StateCall::New)?,
            b"zero" => words.end(StateCall::Zero)?,
            b"open" => words.end(StateCall::Open)?,
            b"update" => StateCall::Update(words.message(space)?),
            b"finalize" => words.end(StateCall::Finalize)?,
            b"count" => words.end(StateCall::Count)?,
            b"leaf_count" => words.end(StateCall::LeafCount)?,
            b"buffered" => words.end(StateCall::Buffered)?,
            b"in_range" => words.end(StateCall::InRange)?,
            _ => return Err(Fault::Command),
        })
    }
}
