// What a script has at hand between two lines for its calls on BLAKE2bp, and the calls on it.
// The record that a call hands back becomes the current one; where it refused, what a refusal leaves does.
ghost use Rattle.std.specs.Prelude.{◌≡◌};
ghost use Rattle.blake2bp.specs.Params.{defaults};
ghost use Rattle.blake2bp.specs.State.{fresh};

use crate::call::{Call, ParamsCall, StateCall};
use blake2bp::{Params, State, blake2bp};
use replay::{digest_shown, record_kept, value_shown};
use replay_text::{Answer, ROOM, Shown};

#[derive(Clone, Copy)]
pub struct Session {
    pub(crate) params: Params,
    pub(crate) state: State,
}

impl Session {
    pub fn new() -> Self
        ensures { result ≡ record { params = defaults; state = fresh defaults } }
    {
        Session {
            params: Params::new(),
            state: State::new(),
        }
    }

    // The bytes that the answer shows are written to the room.
    pub fn run<'r>(&mut self, call: Call<'_>, room: &'r mut [u8; ROOM]) -> Answer<'r> {
        match call {
            Call::Params(call) => self.on_params(call),
            Call::State(call) => self.on_state(call, room),
            Call::Hash(message) => digest_shown(self.params.hash(message), room),
            Call::Blake2bp(message) => digest_shown(Ok(blake2bp(message)), room),
        }
    }

    fn on_params(&mut self, call: ParamsCall<'_>) -> Answer<'static> {
        let params = self.params;
        match call {
            ParamsCall::New => record_kept(&mut self.params, Ok(Params::new()), params),
            ParamsCall::HashLength(length) => record_kept(
                &mut self.params,
                params.hash_length(length),
                params,
            ),
            ParamsCall::Key(key) => record_kept(&mut self.params, params.key(key), params),
            ParamsCall::InRange => Answer::accepted(Shown::Equal(params.in_range())),
        }
    }

    fn on_state<'r>(&mut self, call: StateCall<'_>, room: &'r mut [u8; ROOM]) -> Answer<'r> {
        let state = self.state;
        match call {
            StateCall::New => record_kept(&mut self.state, Ok(State::new()), state),
            StateCall::Zero => record_kept(&mut self.state, Ok(State::zero()), state),
            StateCall::Open => record_kept(&mut self.state, self.params.to_state(), State::zero()),
            StateCall::Update(message) => record_kept(
                &mut self.state,
                state.update(message),
                state,
            ),
            StateCall::Finalize => digest_shown(state.finalize(), room),
            StateCall::Count => value_shown(state.count().map(|count| count.0), Shown::Count),
            StateCall::LeafCount => value_shown(
                state.leaf_count().map(|count| count.0),
                Shown::Count,
            ),
            StateCall::Buffered => value_shown(state.buffered(), Shown::Length),
            StateCall::InRange => Answer::accepted(Shown::Equal(state.in_range())),
        }
    }
}
