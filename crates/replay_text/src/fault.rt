// What is wrong with a line that is no call.
ghost use Rattle.std.specs.Prelude.{Some};
ghost use Rattle.replay_text.specs.Texts.{text_of};

use std::error::Error;
use std::fmt;

#[derive(Clone, Copy, Debug, PartialEq, Eq)]
pub enum Fault {
    Command,
    Number,
    Message,
    Line,
}

impl fmt::Display for Fault {
    ghost output = { λ e. Some (text_of e) };

    fn fmt<W: fmt::Write>(&self, f: &mut fmt::Formatter<W>) -> fmt::Result {
        f.write_str(match self {
            Fault::Command => "malformed command",
            Fault::Number => "malformed number",
            Fault::Message => "malformed message",
            Fault::Line => "malformed line",
        })
    }
}

impl Error for Fault {}
