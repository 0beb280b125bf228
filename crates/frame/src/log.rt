// The log's parts (document 01, "Records").
ghost use Rattle.frame.specs.Log.{PartOf};

use crate::Frame;
use crate::list::Transaction;

// The log bytes of the k-th transaction, k from 1, as a part of the caller's own log. Where there is none it is the empty part at the log's
// start and no `None`: `PartOf` promises it, as document 01 has it.
#[tactic(auto, unfolding(crate::specs::Log::log_part))]
pub fn log_part(log: &[u8], k: usize) -> &[u8]
    ensures { PartOf log.entry k result }
{
    if k < 1 || k > Transaction::MOST || log.len() < k * Frame::LOG_PART {
        return &log[..0];
    }
    let end = k * Frame::LOG_PART;
    &log[end - Frame::LOG_PART..end]
}
