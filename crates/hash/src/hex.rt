// Bytes in lower-case hexadecimal.
ghost use Rattle.std.specs.Prelude.{◌≡◌, ◌*◌, ◌<◌, ◌≤◌, length};
ghost use Rattle.laws_words.specs.Bytes.{over};
ghost use Rattle.hash.specs.Hash.{digit_of, hex_of};

// A lower-case hexadecimal digit.
#[tactic(auto, unfolding(crate::specs::Hash::digit_of))]
fn digit(n: u8) -> u8
    requires { n < 16 }
    ensures { result ≡ digit_of n }
{
    if n < 10 { n + b'0' } else { n - 10 + b'a' }
}

// The bytes in hexadecimal, over the front of an output that has room for them.
pub(crate) fn put_hex(bytes: &[u8], out: &mut [u8])
    requires { 2 * length bytes.now ≤ length out.old }
    ensures { out.new ≡ over (hex_of bytes.now) out.old }
{
    for (i, byte) in bytes.iter().enumerate() {
        let high = digit(*byte / 16);
        let low = digit(*byte % 16);
        out[2 * i] = high;
        out[2 * i + 1] = low;
    }
}
