// A call of a script: read from a line's words, and made on a session.
// A call that takes a message has its bytes, which are made in a lent space.
use crate::digest::DigestCall;
use crate::params::ParamsCall;
use crate::session::Session;
use crate::state::StateCall;
use blake2b::blake2b;
use replay_text::{Answer, Fault, ROOM, Words};

#[derive(Clone, Copy)]
pub enum Call<'a> {
    Params(ParamsCall<'a>),
    State(StateCall<'a>),
    Digest(DigestCall<'a>),
    Hash(&'a [u8]),
    Blake2b(&'a [u8]),
}

impl<'a> Call<'a> {
    pub fn read(mut words: Words<'_>, space: &'a mut [u8]) -> Result<Self, Fault> {
        Ok(match words.next_word() {
            b"params" => Call::Params(ParamsCall::read(words, space)?),
            b"state" => Call::State(StateCall::read(words, space)?),
            b"digest" => Call::Digest(DigestCall::read(words, space)?),
            b"hash" => Call::Hash(words.message(space)?),
            b"blake2b" => Call::Blake2b(words.message(space)?),
            _ => return Err(Fault::Command),
        })
    }
}

impl Session {
    // The bytes that the answer shows are written to the room.
    pub fn run<'r>(&mut self, call: Call<'_>, room: &'r mut [u8; ROOM]) -> Answer<'r> {
        match call {
            Call::Params(call) => self.on_params(call, room),
            Call::State(call) => self.on_state(call, room),
            Call::Digest(call) => self.on_digest(call, room),
            Call::Hash(message) => self.set_last(self.params.hash(message), room),
            Call::Blake2b(message) => self.set_last(Ok(blake2b(message)), room),
        }
    }
}
