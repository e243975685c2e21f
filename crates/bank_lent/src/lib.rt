#![tactic(auto)]

// The bank's batch over a lent list of records, thin, above the form with an array of sixteen.
// Public: both calls are total, and promise the bank's own step `update_many`, which `bank`'s history is about.
ghost use Rattle.std.specs.Prelude.{◌≡◌, length};
ghost use Rattle.bank.specs.Answers.{as_batch_answer};
ghost use Rattle.bank.specs.Rules.{update_many};
ghost use Rattle.bank.specs.Slots.{batch_limit, told, batch_answer};

use bank::{Bank, MOST_RECORDS, Piece};
pub use refusals::BatchRefusal;

// A batch of all records of a lent list. Of a list that is too long the rest is not copied: its length alone has it refused.
pub fn update_many(bank: Bank, pieces: &[Piece], data: &[u8]) -> Result<Bank, BatchRefusal>
    ensures { as_batch_answer bank result ≡ batch_answer (told bank (update_many pieces.now (length pieces.now) «data».now)) }
{
    // Places that are not used may hold any record.
    let mut copied = [Piece::default(); MOST_RECORDS];
    let used = pieces.len();
    let front = used.min(MOST_RECORDS);
    copied[..front].copy_from_slice(&pieces[..front]);
    bank.update_many(copied, used, data)
}

// A batch of the first `used` records of an array, through a lent list.
pub fn update_many_of_array(
    bank: Bank,
    pieces: [Piece; MOST_RECORDS],
    used: usize,
    data: &[u8],
) -> Result<Bank, BatchRefusal>
    ensures { as_batch_answer bank result ≡ batch_answer (told bank (update_many pieces used «data».now)) }
{
    if used > MOST_RECORDS {
        return bank.update_many(pieces, used, data);
    }
    update_many(bank, &pieces[..used], data)
}
