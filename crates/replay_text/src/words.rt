// The words of a line, one space between two: taken from the front, as what the line's call takes.
ghost use Rattle.std.specs.Prelude.{◌≡◌, ◌<◌, ◌≤◌, [], length, true, false, Some, None, Ok, Err, IfOk, IfErr, MatchOption, MatchResult, unwrap_or};
ghost use Rattle.replay_text.specs.Words.{left, in_front, behind, is_passed_over};
ghost use Rattle.replay_text.specs.declared.fault.Fault.TheVariants.{Command, Line, Message};

use crate::fault::Fault;
use crate::message::read_message;
use crate::text::{read_number, split_once};

// The longest line, in bytes.
pub const LONGEST: usize = 8192;

// What is left of a line, if anything is.
#[derive(Clone, Copy)]
pub struct Words<'a> {
    rest: Option<&'a [u8]>,
}

impl<'a> Words<'a> {
    pub fn of(line: &'a [u8]) -> Self
        ensures { left result ≡ Some line.entry.now }
    {
        Words { rest: Some(line) }
    }

    // The words of a line that is to be answered: none where it is empty or a comment. What is too long is a fault whatever it is.
    pub fn of_line(line: &'a [u8]) -> Result<Option<Self>, Fault>
        ensures { MatchResult result
            (λ read. (length line.entry.now ≤ LONGEST) × MatchOption read (is_passed_over line.entry.now ≡ true)
            (λ words. (is_passed_over line.entry.now ≡ false) × (left words ≡ Some line.entry.now)))
            (λ fault. (LONGEST < length line.entry.now) × (fault ≡ Line)) }
    {
        match line {
            _ if line.len() > LONGEST => Err(Fault::Line),
            [] | [b'#', ..] => Ok(None),
            _ => Ok(Some(Words::of(line))),
        }
    }

    // The next word: no bytes where none is left.
    pub fn next_word(&mut self) -> &'a [u8]
        ensures word { result.now ≡ in_front 32 (unwrap_or (left self.old) []) }
        ensures rest { left self.new ≡ behind 32 (unwrap_or (left self.old) []) }
    {
        let (word, rest) = split_once(self.rest.unwrap_or_default(), b' ');
        self.rest = rest;
        word
    }

    // A number of at most `most`, with more to come behind it.
    pub fn number(&mut self, most: u64) -> Result<u64, Fault>
        ensures { IfOk result (λ n. n ≤ most) }
    {
        read_number(self.next_word(), most).ok_or(Fault::Number)
    }

    // The number that all that is left has to be.
    pub fn last_number(self, most: u64) -> Result<u64, Fault>
        ensures { IfOk result (λ n. n ≤ most) }
    {
        read_number(self.rest.unwrap_or_default(), most).ok_or(Fault::Number)
    }

    // The message that all that is left has to be. Its bytes are made in the space.
    pub fn message<'s>(self, space: &'s mut [u8]) -> Result<&'s [u8], Fault>
        ensures ok { IfOk result (λ message. length message.now ≤ length space.old) }
        ensures err { IfErr result (λ fault. fault ≡ Message) }
    {
        read_message(self.rest.unwrap_or_default(), space).ok_or(Fault::Message)
    }

    // A call that takes no words: a fault where any are left.
    pub fn end<T: Copy>(self, call: T) -> Result<T, Fault>
        ensures { MatchOption (left self.entry) (result ≡ Ok call) (λ rest. result ≡ Err Command) }
    {
        match self.rest {
            None => Ok(call),
            Some(_) => Err(Fault::Command),
        }
    }
}
