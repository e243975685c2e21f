// What a call is answered, and its text.
ghost use Rattle.std.specs.Prelude.{◌≡◌, ◌*◌, ◌<◌, false, length, Some};
ghost use Rattle.std.specs.Fmt.{DisplaysOnOk, digit_glyph};
ghost use Rattle.replay_text.specs.Texts.{answer_text, shown_text, hex_text};

use std::fmt;

// The most bytes that an answer shows.
pub const ROOM: usize = 1024;

// How many bytes' digits are written at once: those of a digest are one part.
const PART: usize = 64;

// A call's number, and what is shown behind it. The bytes lie in a lent buffer.
#[derive(Clone, Copy, Debug, PartialEq, Eq)]
pub struct Answer<'a> {
    pub number: u8,
    pub shown: Shown<'a>,
}

impl<'a> Answer<'a> {
    // Of a call that can't refuse.
    pub fn accepted(shown: Shown<'a>) -> Self
        ensures { result ≡ record { number = 0; shown = shown.entry } }
    {
        Answer { number: 0, shown }
    }
}

#[derive(Clone, Copy, Debug, PartialEq, Eq)]
pub enum Shown<'a> {
    Nothing,
    Index(usize),
    Count(u64),
    Length(usize),
    Equal(bool),
    Bytes { length: usize, bytes: &'a [u8] },
}

impl fmt::Display for Answer<'_> {
    ghost output = { λ answer. Some (answer_text answer) };

    fn fmt<W: fmt::Write>(&self, f: &mut fmt::Formatter<W>) -> fmt::Result {
        write!(f, "number={}{}", self.number, self.shown)
    }
}

impl fmt::Display for Shown<'_> {
    ghost output = { λ shown. Some (shown_text shown) };

    fn fmt<W: fmt::Write>(&self, f: &mut fmt::Formatter<W>) -> fmt::Result {
        match self {
            Shown::Nothing => Ok(()),
            Shown::Index(index) => write!(f, " index={index}"),
            Shown::Count(count) => write!(f, " count={count}"),
            Shown::Length(length) => write!(f, " length={length}"),
            Shown::Equal(equal) => write!(f, " equal={}", u8::from(*equal)),
            Shown::Bytes { length, bytes } => {
                write!(f, " length={length} bytes=")?;
                write_digits(bytes, f)
            }
        }
    }
}

// Bytes, each as two lower-case digits, which are written a part at a time.
fn write_digits<W: fmt::Write>(bytes: &[u8], f: &mut fmt::Formatter<W>) -> fmt::Result
    ensures { DisplaysOnOk W.Write.write_str_gives f.old result (Some (hex_text bytes.now)) f.new }
{
    for part in bytes.chunks(PART) {
        let mut room = [0; 2 * PART];
        f.write_str(digits(part, &mut room[..2 * part.len()]))?;
    }
    Ok(())
}

// The digits of a part, over a buffer of their length.
fn digits<'r>(part: &[u8], room: &'r mut [u8]) -> &'r str
    requires { length room.old ≡ 2 * length part.now }
    ensures { result.now ≡ hex_text part.now }
{
    for (i, byte) in part.iter().enumerate() {
        room[2 * i] = digit(byte / 16);
        room[2 * i + 1] = digit(byte % 16);
    }
    str::from_utf8(room).unwrap()
}

// A lower-case hexadecimal digit.
fn digit(n: u8) -> u8
    requires { n < 16 }
    ensures { result ≡ digit_glyph false n }
{
    if n < 10 { b'0' + n } else { b'a' + (n - 10) }
}
