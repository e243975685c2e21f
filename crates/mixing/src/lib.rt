#![tactic(auto)]

// G of RFC 7693, the mixing function, on four words and two of the message.
// Sums wrap on purpose: the RFC's are modulo 2^64.
ghost use Rattle.std.specs.Prelude.{◌≡◌};
ghost use Rattle.definitions.specs.Family.{BLAKE2b};
ghost use Rattle.definitions.specs.Compress.{G};

pub fn g(quad: [u64; 4], x: u64, y: u64) -> [u64; 4]
    ensures { result ≡ G BLAKE2b quad 0 1 2 3 x y }
{
    let [a, b, c, d] = quad;
    let a1 = a.wrapping_add(b).wrapping_add(x);
    let d1 = (d ^ a1).rotate_right(32);
    let c1 = c.wrapping_add(d1);
    let b1 = (b ^ c1).rotate_right(24);
    let a2 = a1.wrapping_add(b1).wrapping_add(y);
    let d2 = (d1 ^ a2).rotate_right(16);
    let c2 = c1.wrapping_add(d2);
    let b2 = (b1 ^ c2).rotate_right(63);
    [a2, b2, c2, d2]
}
