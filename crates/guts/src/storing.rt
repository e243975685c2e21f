// Bytes of a buffer of any size: cleared, stored from an index on, or new ones.
ghost use Rattle.std.specs.Prelude.{◌≡◌, ◌+◌, ◌≤◌, length};
ghost use Rattle.std.proofs.Math.Seq.{paste};
ghost use Rattle.definitions.specs.Words.{pad};
ghost use Rattle.laws_words.specs.Bytes.{zeros};

#[tactic(auto, unfolding(laws_words::specs::Bytes::zeros))]
pub fn clear(buf: &mut [u8])
    ensures { buf.new ≡ zeros (length buf.old) }
{
    buf.fill(0);
}

// The bytes of input stored from an index on.
pub fn store(buf: &mut [u8], at: usize, input: &[u8])
    requires { at + length input.now ≤ length buf.old }
    ensures { buf.new ≡ paste buf.old at input.now (length input.now) }
{
    buf[at..at + input.len()].copy_from_slice(input);
}

#[tactic(auto, unfolding(laws_words::specs::Bytes::zeros))]
pub fn zeroed<const N: usize>() -> [u8; N]
    ensures { result ≡ zeros N }
{
    [0; N]
}

// The bytes, and zeros up to N.
#[tactic(auto, using(laws_words::proofs::Stores::stored_padded))]
pub fn padded<const N: usize>(bytes: &[u8]) -> [u8; N]
    requires { length bytes.now ≤ N }
    ensures { result ≡ pad N bytes.now }
{
    let mut block = zeroed::<N>();
    store(&mut block, 0, bytes);
    block
}
