// Outputs of one part for each transaction of a list: steps, and answers (document 01, "Records").
ghost use Rattle.std.specs.Prelude.{◌≡◌, ◌≤◌};
ghost use Rattle.verdict.specs.Refusal.{Done, said};
ghost use Rattle.frame.specs.Frame.{clocks};
ghost use Rattle.frame.specs.List.{list_verdict};
ghost use Rattle.frame.specs.Parts.{Takes, WritesEach};

use crate::list::{Transaction, parsed_at};
use verdict::{Fault, Refusal};

// Calls `put` with each transaction of an accepted list, its index and its part of the output, `width` bytes.
pub(crate) fn put_each<F: Fn(Transaction, usize, &mut [u8])>(
    list: &[u8],
    count: usize,
    width: usize,
    out: &mut [u8],
    put: F,
) -> Result<usize, Refusal>
    requires accepted { list_verdict list.now ≡ Done count }
    requires narrow { width ≤ clocks }
    requires takes { Takes F.Fn put list.now width count }
    ensures { WritesEach F.Fn put list.now width count out.old (said result) out.new }
{
    if out.len() < count * width {
        return Err(Fault::NoRoom.at(0));
    }
    for k in 0..count {
        // Taken apart by `let .. else`, a rule of document 01. The list's check came first, so no record is bad here, and a refusal has written
        // nothing.
        let record = parsed_at(list, k);
        let Ok(transaction) = record else {
            return Err(record.unwrap_err().at(k));
        };
        let at = k * width;
        put(transaction, k, &mut out[at..at + width]);
    }
    Ok(count * width)
}
