// The message bytes that came: a kind of number of its own, so that it can't be used as a leaf's count.
// A leaf's count is the other kind.
#[derive(Clone, Copy)]
pub struct MessageCount(pub u64);
