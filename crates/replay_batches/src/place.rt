// The place of a job or a record, of which there are sixteen.
ghost use Rattle.std.specs.Prelude.{◌<◌};

use replay_text::{Fault, Words};

#[derive(Clone, Copy)]
pub struct Place {
    pub(crate) index: usize,
    ghost in_range: { index < 16 },
}

impl Place {
    pub(crate) fn read(words: &mut Words<'_>) -> Result<Self, Fault> {
        let index = words.number(15)? as usize;
        Ok(Place { index })
    }

    // The place that all that is left has to be.
    pub(crate) fn read_last(words: Words<'_>) -> Result<Self, Fault> {
        let index = words.last_number(15)? as usize;
        Ok(Place { index })
    }
}
