// The calls of a script on parameters: setters, and questions that leave them as they are.
// A call that can't refuse is answered the number 0.
use crate::session::Session;
use crate::shown::bytes_shown;
use blake2b::Params;
use replay_text::{Answer, Fault, ROOM, Shown, Words};
use words::write_words;

#[derive(Clone, Copy)]
pub enum ParamsCall<'a> {
    New,
    HashLength(usize),
    Key(&'a [u8]),
    Salt(&'a [u8]),
    Personal(&'a [u8]),
    Fanout(u8),
    MaxDepth(u8),
    MaxLeafLength(u32),
    NodeOffset(u64),
    NodeDepth(u8),
    InnerHashLength(usize),
    LastNode(bool),
    InRange,
    IsKeyed,
    IsLastNode,
    DigestLength,
    KeyBlock,
    ToWords,
}

impl<'a> ParamsCall<'a> {
    pub(crate) fn read(mut words: Words<'_>, space: &'a mut [u8]) -> Result<Self, Fault> {
        Ok(match words.next_word() {
            b"new" => words.end(ParamsCall::New)?,
            b"hash_length" => ParamsCall::HashLength(words.last_number(u64::MAX)? as usize),
            b"key" => ParamsCall::Key(words.message(space)?),
            b"salt" => ParamsCall::Salt(words.message(space)?),
            b"personal" => ParamsCall::Personal(words.message(space)?),
            b"fanout" => ParamsCall::Fanout(words.last_number(255)? as u8),
            b"max_depth" => ParamsCall::MaxDepth(words.last_number(255)? as u8),
            b"max_leaf_length" => ParamsCall::MaxLeafLength(words.last_number(4294967295)? as u32),
            b"node_offset" => ParamsCall::NodeOffset(words.last_number(u64::MAX)?),
            b"node_depth" => ParamsCall::NodeDepth(words.last_number(255)? as u8),
            b"inner_hash_length" => ParamsCall::InnerHashLength(
                words.last_number(u64::MAX)? as usize,
            ),
            b"last_node" => ParamsCall::LastNode(words.last_number(1)? == 1),
            b"in_range" => words.end(ParamsCall::InRange)?,
            b"is_keyed" => words.end(ParamsCall::IsKeyed)?,
            b"is_last_node" => words.end(ParamsCall::IsLastNode)?,
            b"digest_length" => words.end(ParamsCall::DigestLength)?,
            b"key_block" => words.end(ParamsCall::KeyBlock)?,
            b"to_words" => words.end(ParamsCall::ToWords)?,
            _ => return Err(Fault::Command),
        })
    }
}

impl Session {
    pub(crate) fn on_params<'r>(
        &mut self,
        call: ParamsCall<'_>,
        room: &'r mut [u8; ROOM],
    ) -> Answer<'r> {
        let params = self.params;
        match call {
            ParamsCall::New => self.set_params(Ok(Params::new())),
            ParamsCall::HashLength(length) => self.set_params(params.hash_length(length)),
            ParamsCall::Key(key) => self.set_params(params.key(key)),
            ParamsCall::Salt(salt) => self.set_params(params.salt(salt)),
            ParamsCall::Personal(personal) => self.set_params(params.personal(personal)),
            ParamsCall::Fanout(fanout) => self.set_params(params.fanout(fanout)),
            ParamsCall::MaxDepth(depth) => self.set_params(params.max_depth(depth)),
            ParamsCall::MaxLeafLength(length) => self.set_params(params.max_leaf_length(length)),
            ParamsCall::NodeOffset(offset) => self.set_params(params.node_offset(offset)),
            ParamsCall::NodeDepth(depth) => self.set_params(params.node_depth(depth)),
            ParamsCall::InnerHashLength(length) => self.set_params(params.inner_hash_length(
                length,
            )),
            ParamsCall::LastNode(yes) => self.set_params(params.last_node(yes)),
            ParamsCall::InRange => Answer::accepted(Shown::Equal(params.in_range())),
            ParamsCall::IsKeyed => Answer::accepted(Shown::Equal(params.is_keyed())),
            ParamsCall::IsLastNode => Answer::accepted(Shown::Equal(params.is_last_node())),
            ParamsCall::DigestLength => Answer::accepted(Shown::Length(
                params.digest_length() as usize,
            )),
            ParamsCall::KeyBlock => bytes_shown(&params.key_block(), room),
            ParamsCall::ToWords => bytes_shown(&write_words(params.to_words()), room),
        }
    }
}
