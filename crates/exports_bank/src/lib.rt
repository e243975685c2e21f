#![tactic(auto)]

// What a program in C or Rust links to measure a bank against a state, and hash jobs against one-shot hashes.
// Test code: safe by proof, with no promise of its own. Each call makes its records, since they go by value, and asks them `times` times.
use bank::{Bank, MOST_RECORDS, Piece, SLOTS};
use blake2b::{Params, State};
use many::{HashManyJob, MOST_JOBS, hash_many};
use refusals::number_in;
use std::array;

// The digest of a state that took the input so many times.
#[unsafe(no_mangle)]
pub extern "C" fn sumpillow_state_updates(input: &[u8], times: usize, out: &mut [u8]) -> u8 {
    let mut state = State::new();
    for _ in 0..times {
        if let Ok(next) = state.update(input) {
            state = next;
        }
    }
    number_in(&state.finalize().and_then(|hash| hash.write_bytes(out)))
}

// A bank whose slots are all open.
fn opened() -> Bank {
    let mut bank = Bank::new();
    for slot in 0..SLOTS {
        if let Ok(next) = bank.open(slot, Params::new()) {
            bank = next;
        }
    }
    bank
}

// The digest of a slot of an open bank that took the input so many times, each time by an update of its own.
#[unsafe(no_mangle)]
pub extern "C" fn sumpillow_bank_updates(
    input: &[u8],
    times: usize,
    slot: usize,
    out: &mut [u8],
) -> u8 {
    let mut bank = opened();
    for _ in 0..times {
        if let Ok(next) = bank.update(slot, input) {
            bank = next;
        }
    }
    number_in(&bank.digest_to(slot, out))
}

// The digest of a slot of an open bank after so many batches of so many records, each record of the whole input.
#[unsafe(no_mangle)]
pub extern "C" fn sumpillow_bank_batches(
    input: &[u8],
    records: usize,
    times: usize,
    slot: usize,
    out: &mut [u8],
) -> u8 {
    // A record for each slot.
    let pieces: [Piece; MOST_RECORDS] = array::from_fn(|slot| Piece {
        slot,
        start: 0,
        length: input.len(),
    });
    let mut bank = opened();
    for _ in 0..times {
        if let Ok(next) = bank.update_many(pieces, records, input) {
            bank = next;
        }
    }
    number_in(&bank.digest_to(slot, out))
}

// A slot of an open bank is asked for its digest so many times.
#[unsafe(no_mangle)]
pub extern "C" fn sumpillow_bank_digests(times: usize, slot: usize, out: &mut [u8]) -> u8 {
    let bank = opened();
    let mut number = 0;
    for _ in 0..times {
        number = number_in(&bank.digest_to(slot, out));
    }
    number
}

// A slot of an open bank is asked for its count so many times; the last answer.
#[unsafe(no_mangle)]
pub extern "C" fn sumpillow_bank_counts(times: usize, slot: usize) -> u64 {
    let bank = opened();
    let mut last = 0;
    for _ in 0..times {
        last = bank.count(slot).unwrap_or(0);
    }
    last
}

// The digests of a batch of jobs that each have the input, one behind the other.
#[unsafe(no_mangle)]
pub extern "C" fn sumpillow_jobs(input: &[u8], out: &mut [u8]) {
    let jobs: [HashManyJob; MOST_JOBS] = array::from_fn(|_| {
        HashManyJob::new(Params::new(), input, 0, input.len()).unwrap_or(HashManyJob::zero())
    });
    if let Ok(done) = hash_many(jobs, MOST_JOBS, input) {
        for (job, digest) in done.iter().zip(out.chunks_exact_mut(64)) {
            // What is refused writes nothing.
            let _ = job.to_hash().and_then(|hash| hash.write_bytes(digest));
        }
    }
}
