// Parts of a line, and numbers.
// A mark is a byte between two parts: a space, a colon, a bracket.
ghost use Rattle.std.specs.Prelude.{◌≡◌, ◌≢◌, ℕ, ◌<◌, ◌≤◌, length, slice_index, IfSome, option_map};
ghost use Rattle.replay_text.specs.Words.{in_front, behind};

// Where the first mark is: the text's length where there is none.
pub fn find(text: &[u8], mark: u8) -> usize
    ensures within { result ≤ length text.now }
    ensures before { (k : ℕ) → k < result → slice_index text.now k ≢ mark }
    ensures found { result < length text.now → slice_index text.now result ≡ mark }
{
    text.iter()
        .position(|byte| *byte == mark)
        .unwrap_or(text.len())
}

// The text in front of the first mark and the text behind it: all of it and none where there is no mark.
#[tactic(auto, using(crate::proofs::Marks::first_mark))]
pub fn split_once(text: &[u8], mark: u8) -> (&[u8], Option<&[u8]>)
    ensures front { result.0.now ≡ in_front mark text.now }
    ensures rest { option_map (λ rest. rest.now) result.1 ≡ behind mark text.now }
{
    let at = find(text, mark);
    (&text[..at], text.get(at + 1..))
}

// An unsigned decimal number of at most `most`. Where digits alone stand, `parse` reads no sign.
pub fn read_number(text: &[u8], most: u64) -> Option<u64>
    ensures { IfSome result (λ n. n ≤ most) }
{
    if !text.iter().all(|byte| byte.is_ascii_digit()) {
        return None;
    }
    let number = str::from_utf8(text).ok()?.parse::<u64>().ok()?;
    if number > most {
        return None;
    }
    Some(number)
}
