// What each leaf has compressed: a kind of number of its own, so that it can't be used as a message count.
// BLAKE2bp's message count is the other kind.

// Key block bytes are counted with it.
#[derive(Clone, Copy)]
pub struct LeafCount(pub u64);
