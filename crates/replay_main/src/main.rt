#![tactic(auto)]

// Runs a script of calls: it comes on standard input, and the answers go to standard output.
// The work is that of crates replay, replay_batches and replay_blake2bp; here a line is put together from what the reads bring.
use arrayvec::{ArrayString, ArrayVec};
use replay_text::{Answer, Fault, LONGEST, ROOM, Words};
use std::fmt::{Display, Write};
use std::io;
use std::io::Read;

// One read's bytes: a big buffer, as each read is a call of the system.
const PIECE: usize = 65536;

// A byte more than the longest line, so that a longer one is seen.
const LINE: usize = LONGEST + 1;

// The longest answer, which shows 1,024 bytes, has room.
const TEXT: usize = 4096;

// The longest message's bytes.
const SPACE: usize = 4194304;

// The sessions that the calls are on.
#[derive(Clone, Copy)]
struct Sessions {
    blake2b: replay::Session,
    batches: replay_batches::Session,
    blake2bp: replay_blake2bp::Session,
}

impl Sessions {
    fn new() -> Self {
        Sessions {
            blake2b: replay::Session::new(),
            batches: replay_batches::Session::new(),
            blake2bp: replay_blake2bp::Session::new(),
        }
    }

    // Jobs and banks are made with BLAKE2b's current parameters.
    fn on_batches<'r>(
        &mut self,
        call: replay_batches::Call<'_>,
        room: &'r mut [u8; ROOM],
    ) -> Answer<'r> {
        self.batches.run(self.blake2b.params, call, room)
    }

    // The call whose words they are, by the first. A message is made in the space, and the bytes that are shown in the room.
    fn call<'r>(
        &mut self,
        all: Words<'_>,
        space: &mut [u8],
        room: &'r mut [u8; ROOM],
    ) -> Result<Answer<'r>, Fault> {
        let mut words = all;
        Ok(match words.next_word() {
            b"bp" => self
                .blake2bp
                .run(replay_blake2bp::Call::read(words, space)?, room),
            b"job" | b"bank" => self.on_batches(replay_batches::Call::read(all, space)?, room),
            _ => self.blake2b.run(replay::Call::read(all, space)?, room),
        })
    }

    // What is no call changes nothing. An empty line and a comment are answered nothing.
    fn run<'r>(
        &mut self,
        line: &[u8],
        space: &mut [u8],
        room: &'r mut [u8; ROOM],
    ) -> Result<Option<Answer<'r>>, Fault> {
        match Words::of_line(line)? {
            Some(words) => self.call(words, space, room).map(Some),
            None => Ok(None),
        }
    }

    fn answer(&mut self, output: &impl Print, line: &[u8], space: &mut [u8]) -> io::Result<()> {
        let mut room = [0u8; ROOM];
        match self.run(line, space, &mut room) {
            Ok(Some(answer)) => write_line(output, answer),
            Ok(None) => Ok(()),
            Err(fault) => write_line(output, fault),
        }
    }

    // A read's bytes, in which lines end. What has no room in a line is left out: it is too long whatever it is.
    // The answers are written as they are made. A write that fails doesn't end the run: the first is answered.
    fn take(
        &mut self,
        output: &impl Print,
        piece: &[u8],
        line: &mut ArrayVec<u8, LINE>,
        space: &mut [u8],
    ) -> io::Result<()> {
        let mut written = Ok(());
        for part in piece.split_inclusive(|byte| *byte == b'\n') {
            let end = part.strip_suffix(b"\n");
            let _ = line.extend(end.unwrap_or(part).iter().copied());
            if end.is_some() {
                written = written.and(self.answer(output, line, space));
                line.clear();
            }
        }
        written
    }
}

// One write for the whole line, so that a pipe that others write to, or that fills up, has it whole or not at all.
fn write_line(output: &impl Print, shown: impl Display + Drop) -> io::Result<()> {
    let mut text = ArrayString::<TEXT>::new();
    writeln!(text, "{shown}")?;
    output.write_all(text.as_bytes())
}

// A last line needs no line feed. Where the input can't be read, what is held of a line is left.
// A proved loop has to end, and nothing says that the input does: no run has so many reads.
fn run_all(
    reader: &mut impl Read,
    output: &impl Print,
    piece: &mut [u8; PIECE],
    space: &mut [u8; SPACE],
) -> io::Result<()> {
    let mut sessions = Sessions::new();
    let mut line = ArrayVec::new();
    let mut written = Ok(());
    for _ in 0..u64::MAX {
        let last = match reader.read(piece) {
            Ok(0) => sessions.answer(output, &line, space),
            Ok(end) => {
                written = written.and(sessions.take(output, &piece[..end], &mut line, space));
                continue;
            }
            Err(_) => output.write_all(b"unreadable\n"),
        };
        return written.and(last);
    }
    written
}

// As long as the longest message. Behind a function it is no literal, whose four million bytes a proof would go through.
fn empty_space() -> [u8; SPACE] {
    [0; SPACE]
}

fn main(rt: HostRuntime) -> io::Result<()> {
    let mut piece = [0u8; PIECE];
    let mut space = empty_space();
    run_all(&mut rt.stdin(), &rt, &mut piece, &mut space)
}
