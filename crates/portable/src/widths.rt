// The numbers of BLAKE2b that the block loop goes by: a block, and what a stride stands for.
// What is below them is told its sizes, or takes them from its buffers.
ghost use Rattle.std.specs.Prelude.{◌≡◌};
ghost use Rattle.portable.specs.Strides.{padded_blockbytes};

use guts::Stride;

pub const BLOCKBYTES: usize = 128;

// The bytes from one block of a run to the next.
pub(crate) fn padded_blockbytes(stride: Stride) -> usize
    ensures { result ≡ padded_blockbytes stride }
{
    match stride {
        Stride::Serial => BLOCKBYTES,
        Stride::Parallel => 4 * BLOCKBYTES,
    }
}
