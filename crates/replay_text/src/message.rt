// A message as a script writes it: its bytes in hexadecimal, counted up, or generated; all of them or a part.
// The bytes go to the front of a lent space, which is as long as the longest message.
ghost use Rattle.std.specs.Prelude.{◌≤◌, length, IfSome};

use crate::text::{read_number, split_once};
use hex::decode_to_slice;

// DIGITS. No line has so many that they wouldn't fit the space.
fn decoded<'a>(digits: &[u8], space: &'a mut [u8]) -> Option<&'a [u8]>
    ensures { IfSome result (λ message. length message.now ≤ length space.old) }
{
    let message = space.get_mut(..digits.len() / 2)?;
    decode_to_slice(digits, message).ok()?;
    Some(message)
}

// LENGTH:START or LENGTH:SEED, of which the second is at most `most`: the message's place, and the second.
fn sized<'a>(text: &[u8], most: u64, space: &'a mut [u8]) -> Option<(&'a mut [u8], u64)>
    ensures place { IfSome result (λ sized. length sized.0.now ≤ length space.old) }
    ensures second { IfSome result (λ sized. sized.1 ≤ most) }
{
    let (length, first) = split_once(text, b':');
    let message = space.get_mut(..read_number(length, u64::MAX)? as usize)?;
    Some((message, read_number(first?, most)?))
}

fn counted<'a>(text: &[u8], space: &'a mut [u8]) -> Option<&'a [u8]>
    ensures { IfSome result (λ message. length message.now ≤ length space.old) }
{
    let (message, start) = sized(text, 255, space)?;
    let mut next = start as u8;
    for byte in message.iter_mut() {
        *byte = next;
        next = next.wrapping_add(1);
    }
    Some(message)
}

// The generator of C's rand in many of its first libraries.
fn generated<'a>(text: &[u8], space: &'a mut [u8]) -> Option<&'a [u8]>
    ensures { IfSome result (λ message. length message.now ≤ length space.old) }
{
    let (message, seed) = sized(text, 0x7FFF_FFFF, space)?;
    let mut x = seed as u32;
    for byte in message.iter_mut() {
        x = x.wrapping_mul(1103515245).wrapping_add(12345) % 0x8000_0000;
        *byte = (x / 65536 % 256) as u8;
    }
    Some(message)
}

// FROM:TO]
fn cut<'a>(text: &[u8], message: &'a [u8]) -> Option<&'a [u8]>
    ensures { IfSome result (λ part. length part.now ≤ length message.entry.now) }
{
    let (from, to) = split_once(text.strip_suffix(b"]")?, b':');
    let from = read_number(from, u64::MAX)? as usize;
    let to = read_number(to?, u64::MAX)? as usize;
    message.get(from..to)
}

// x:DIGITS, c:LENGTH:START or g:LENGTH:SEED, and behind it [FROM:TO] or nothing.
pub fn read_message<'a>(text: &[u8], space: &'a mut [u8]) -> Option<&'a [u8]>
    ensures { IfSome result (λ message. length message.now ≤ length space.old) }
{
    let (whole, part) = split_once(text, b'[');
    let message = match whole {
        [b'x', b':', digits @ ..] => decoded(digits, space)?,
        [b'c', b':', rest @ ..] => counted(rest, space)?,
        [b'g', b':', rest @ ..] => generated(rest, space)?,
        _ => return None,
    };
    match part {
        Some(part) => cut(part, message),
        None => Some(message),
    }
}
