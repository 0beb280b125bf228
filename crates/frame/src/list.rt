// The list file: 6-byte records, high byte first, 0 to 64 (document 01, "Records" and "Refusal numbers").
ghost use Rattle.std.specs.Prelude.{◌≡◌};
ghost use Rattle.verdict.specs.Refusal.{said, judged, finding};
ghost use Rattle.frame.specs.List.{transaction_at, fault_of, parsed, list_verdict};

use verdict::{Fault, Refusal, byte_at, count_records, word_at};

// The op is a byte of a file and no enum: `transaction_at`, `step` and `answer` promise what they give for every byte.
#[derive(Clone, Copy, Default)]
pub struct Transaction {
    pub op: u8,
    pub address: u8,
    pub register: u8,
    pub data: u16,
}

impl Transaction {
    pub const WRITE: u8 = 1;

    pub const READ: u8 = 2;

    pub const LAST_ADDRESS: u8 = 31;

    pub const LAST_REGISTER: u8 = 31;

    pub const BYTES: usize = 6;

    pub const MOST: usize = 64;
}

// The transaction of the record at index k; what lies past the list's end reads 0.
#[tactic(auto, unfolding(crate::specs::List::transaction_at))]
pub fn transaction_at(list: &[u8], k: usize) -> Transaction
    ensures { result ≡ transaction_at list.now k }
{
    if list.len() / Transaction::BYTES < k {
        return Transaction::default();
    }
    let at = k * Transaction::BYTES;
    Transaction {
        op: byte_at(list, at),
        address: byte_at(list, at + 1),
        register: byte_at(list, at + 2),
        data: word_at(list, at + 4),
    }
}

impl Transaction {
    // The checks of a record with this zero byte, by rising number.
    fn check(self, zero: u8) -> Result<(), Fault>
        ensures { finding result ≡ fault_of self zero }
    {
        if self.address > Transaction::LAST_ADDRESS
            || self.register > Transaction::LAST_REGISTER
            || zero != 0
        {
            return Err(Fault::WrongField);
        }
        match self.op {
            Transaction::WRITE => Ok(()),
            Transaction::READ if self.data == 0 => Ok(()),
            Transaction::READ => Err(Fault::WrongField),
            _ => Err(Fault::WrongOp),
        }
    }
}

// The record at index k, read and checked. What lies past the list's end reads 0, which is no op.
pub fn parsed_at(list: &[u8], k: usize) -> Result<Transaction, Fault>
    ensures { judged result ≡ parsed list.now k }
{
    // Where k is far past the end its record's place might not fit a usize, so this is asked first, as in `transaction_at`.
    if list.len() / Transaction::BYTES < k {
        return Err(Fault::WrongOp);
    }
    let record = transaction_at(list, k);
    record.check(byte_at(list, k * Transaction::BYTES + 3))?;
    Ok(record)
}

// The list's checks: 1, 2, then its records in order. Ok says how many there are.
pub fn check_list(list: &[u8]) -> Result<usize, Refusal>
    ensures { said result ≡ list_verdict list.now }
{
    let count = count_records(list, Transaction::BYTES, Transaction::MOST)?;
    for k in 0..count {
        // Each parse is taken apart by `let .. else`, a rule of document 01; the fault is then had from the same local.
        let record = parsed_at(list, k);
        let Ok(_) = record else {
            return Err(record.unwrap_err().at(k));
        };
    }
    Ok(count)
}
