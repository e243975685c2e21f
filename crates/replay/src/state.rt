// The calls of a script on a state, which may be made of the current parameters: a refused one leaves the state, or the zero state.
// A call that can't refuse is answered the number 0.
use crate::session::Session;
use crate::shown::{record_kept, value_shown};
use blake2b::State;
use replay_text::{Answer, Fault, ROOM, Shown, Words};

#[derive(Clone, Copy)]
pub enum StateCall<'a> {
    New,
    Zero,
    Open,
    Update(&'a [u8]),
    SetLastNode(bool),
    Finalize,
    Count,
    InRange,
}

impl<'a> StateCall<'a> {
    pub(crate) fn read(mut words: Words<'_>, space: &'a mut [u8]) -> Result<Self, Fault> {
        Ok(match words.next_word() {
            b"new" => words.end(StateCall::New)?,
            b"zero" => words.end(StateCall::Zero)?,
            b"open" => words.end(StateCall::Open)?,
            b"update" => StateCall::Update(words.message(space)?),
            b"set_last_node" => StateCall::SetLastNode(words.last_number(1)? == 1),
            b"finalize" => words.end(StateCall::Finalize)?,
            b"count" => words.end(StateCall::Count)?,
            b"in_range" => words.end(StateCall::InRange)?,
            _ => return Err(Fault::Command),
        })
    }
}

impl Session {
    pub(crate) fn on_state<'r>(
        &mut self,
        call: StateCall<'_>,
        room: &'r mut [u8; ROOM],
    ) -> Answer<'r> {
        let state = self.state;
        match call {
            StateCall::New => record_kept(&mut self.state, Ok(State::new()), state),
            StateCall::Zero => record_kept(&mut self.state, Ok(State::zero()), state),
            StateCall::Open => record_kept(&mut self.state, self.params.to_state(), State::zero()),
            StateCall::Update(message) => record_kept(
                &mut self.state,
                state.update(message),
                state,
            ),
            StateCall::SetLastNode(yes) => record_kept(
                &mut self.state,
                state.set_last_node(yes),
                state,
            ),
            StateCall::Finalize => self.set_last(state.finalize(), room),
            StateCall::Count => value_shown(state.count(), Shown::Count),
            StateCall::InRange => Answer::accepted(Shown::Equal(state.in_range())),
        }
    }
}
