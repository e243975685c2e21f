// What a script has at hand between two lines.
// The record that a call hands back becomes the current one; where it refused, what a refusal leaves does.
ghost use Rattle.std.specs.Prelude.{◌≡◌};
ghost use Rattle.hash.specs.Answers.{zero_hash};
ghost use Rattle.blake2b_state.specs.State.{plain};
ghost use Rattle.blake2b.specs.Params.{defaults};

use crate::shown::{digest_shown, record_kept};
use blake2b::{Hash, Params, State};
use refusals::Refusal;
use replay_text::{Answer, ROOM};

#[derive(Clone, Copy)]
pub struct Session {
    pub params: Params,
    pub(crate) state: State,
    // The digest that was answered last, and the one that was kept to compare with.
    pub(crate) last: Hash,
    pub(crate) kept: Hash,
}

impl Session {
    pub fn new() -> Self
        ensures { result ≡ record { params = defaults; state = plain; last = zero_hash; kept = zero_hash } }
    {
        Session {
            params: Params::new(),
            state: State::new(),
            last: Hash::zero(),
            kept: Hash::zero(),
        }
    }

    // A refused setter leaves the parameters as they were.
    pub(crate) fn set_params(&mut self, answer: Result<Params, Refusal>) -> Answer<'static> {
        let left = self.params;
        record_kept(&mut self.params, answer, left)
    }

    // A refused digest leaves zeros.
    pub(crate) fn set_last<'r>(
        &mut self,
        answer: Result<Hash, Refusal>,
        room: &'r mut [u8; ROOM],
    ) -> Answer<'r> {
        self.last = answer.unwrap_or(Hash::zero());
        digest_shown(answer, room)
    }
}
