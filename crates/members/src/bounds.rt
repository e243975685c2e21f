// What the calls of a state test, by the bounds of its member: 14 where the record is bad, 6 where the total would pass the limit.
// One test for every member, which names its bounds.
ghost use Rattle.std.specs.Prelude.{◌≡◌, ◌+◌, ◌*◌, ◌≤◌, true, false, SomeIff, MatchResult};
ghost use Rattle.refusals.specs.Numbers.{accepted, limit};
ghost use Rattle.refusals.specs.Answers.{number_of};
ghost use Rattle.refusals.specs.Tests.{first, tested};
ghost use Rattle.members.specs.Answers.{told};
ghost use Rattle.members.specs.Keeper.{key_row};
ghost use Rattle.members.specs.Sizes.{bounds_of, in_bounds, total_in, room_tests, range_tests, message_bytes};

use refusals::{LIMIT, Refusal};

#[derive(Clone, Copy)]
pub struct Bounds {
    // The longest digest.
    pub most: usize,
    // The bytes of the buffer.
    pub room: usize,
    // The bytes that came for each one counted.
    pub unit: u64,
    // What a key adds to the total.
    pub key: u64,
}

// What the ranges are of: four fields of a state.
#[derive(Clone, Copy)]
pub struct Sizes {
    pub hash_length: u8,
    pub buflen: usize,
    pub count: u64,
    pub is_keyed: bool,
}

impl Bounds {
    // Of the total, what is the key's.
    fn ahead(self, is_keyed: bool) -> u64
        ensures { result ≡ key_row (bounds_of self) is_keyed }
    {
        if is_keyed { self.key } else { 0 }
    }

    // The message bytes and key block bytes that came to a state of these sizes, where it keeps its ranges.
    #[tactic(auto, unfolding(crate::specs::Keeper::range_of, refusals::specs::Numbers::limit))]
    fn total(self, sizes: Sizes) -> Option<u64>
        ensures { SomeIff result (in_bounds self sizes ≡ true) (total_in self sizes) }
    {
        let total = self
            .unit
            .checked_mul(sizes.count)?
            .checked_add(sizes.buflen as u64)?;
        let in_range = (1..=self.most).contains(&(sizes.hash_length as usize))
            && sizes.buflen <= self.room
            && self.ahead(sizes.is_keyed) <= total;
        in_range.then_some(total)
    }

    // Whether a state of these sizes keeps its ranges.
    pub fn admits(self, sizes: Sizes) -> bool
        ensures { result ≡ in_bounds self sizes }
    {
        self.total(sizes).is_some()
    }

    // Refuses a state that breaks its ranges, and hands back the total of one that keeps them.
    pub fn check(self, sizes: Sizes) -> Result<u64, Refusal>
        ensures { MatchResult result (λ t. (in_bounds self sizes ≡ true) × (t ≡ total_in self sizes)) (λ e. (e ≡ Refusal.Record) × (in_bounds self sizes ≡ false)) }
    {
        self.total(sizes).ok_or(Refusal::Record)
    }

    // Refuses more bytes than the total has room for.
    pub fn check_room(self, sizes: Sizes, more: usize) -> Result<(), Refusal>
        ensures { MatchResult result (λ _. (in_bounds self sizes ≡ true) × (total_in self sizes + more ≤ limit)) (λ e. number_of e ≡ first (room_tests self sizes more)) }
    {
        let left = LIMIT - self.check(sizes)?;
        if more as u64 > left {
            return Err(Refusal::Total);
        }
        Ok(())
    }

    // The message bytes that came: those of the key are not among them.
    pub fn message_bytes(self, sizes: Sizes) -> Result<u64, Refusal>
        ensures { told 0 result ≡ tested (range_tests self sizes) (accepted, message_bytes self sizes) (λ n. (n, 0)) }
    {
        Ok(self.check(sizes)? - self.ahead(sizes.is_keyed))
    }
}
