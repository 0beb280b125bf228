// The transactions of a list one after the other (document 01: "transaction k reads in clock 65(k-1)+46 or stores in
// 65(k-1)+64"), with the events between them.
ghost use Rattle.std.specs.Prelude.{◌≡◌, ◌*◌, [], ◌∷◌};
ghost use Rattle.verdict.specs.Refusal.{Done, judged};
ghost use Rattle.verdict.specs.File.{records};
ghost use Rattle.frame.specs.List.{list_record};
ghost use Rattle.frame.specs.Answers.{answer_record};
ghost use Rattle.plain_machine.specs.Plain.{planning};
ghost use Rattle.plain_machine.specs.Transact.{lead_of, after_act, answer_of, Transacted};

use between::{is_due, owns_of, place_of, taker_of};
use board::{Board, address_of, code_of};
use frame::{Answer, Frame, Transaction, parsed_at};
use phy::Phy;
use verdict::Fault;
use wire::Header;

// The clocks of a transaction before the one in which it acts; past the list's end there are none.
#[tactic(auto, unfolding(crate::specs::Transact::clocks_before))]
fn lead_of(parsed: Result<Transaction, Fault>) -> usize
    ensures { result ≡ lead_of (judged parsed) }
{
    match parsed {
        Ok(transaction) if transaction.op == Transaction::READ => Frame::READ_ACTS - 1,
        Ok(_) => Frame::WRITE_ACTS - 1,
        Err(_) => 0,
    }
}

// What a transaction does to a PHY in the clock in which it acts.
#[tactic(auto, unfolding(crate::specs::Transact::after_act))]
fn after_act(phy: Phy, transaction: Transaction) -> Phy
    ensures { result ≡ after_act transaction phy }
{
    let header = Header::from(transaction);
    if transaction.op == Transaction::READ {
        phy.after_header(header)
    } else {
        phy.after_frame(header, transaction.data)
    }
}

// The answer where no PHY takes the transaction's address.
#[tactic(auto, unfolding(crate::specs::Transact::answer_of))]
fn unanswered(transaction: Transaction) -> Answer
    ensures { result ≡ answer_of transaction [] }
{
    if transaction.op == Transaction::READ {
        transaction.answer(Answer::SILENT, 0)
    } else {
        transaction.answer(Answer::SENT, transaction.data)
    }
}

// The answer where a PHY does.
#[tactic(auto, unfolding(crate::specs::Transact::answer_of))]
fn answer_of(phy: Phy, transaction: Transaction) -> Answer
    ensures { result ≡ answer_of transaction (phy ∷ []) }
{
    let header = Header::from(transaction);
    if phy.own.answers(header) {
        transaction.answer(Answer::ANSWERED, phy.word(header.register))
    } else {
        unanswered(transaction)
    }
}

// All transactions of a list that is not refused. A turn is an event that is due before the next transaction acts, or else
// that act; each changes the one PHY that it is for where that stands. Past the last
// record all events that are left have happened.
pub(crate) fn transact_all(board: &mut Board, list: &[u8], events: &[u8], answers: &mut [u8])
    requires { planning board.old list.now events.now answers.old ≡ Done (records list_record list.now * answer_record) }
    ensures { Transacted board.old list.now events.now answers.old board.new answers.new }
{
    let places = owns_of(*board);
    let owns = &places[..board.count];
    // A turn counts up one of the two. A `for` over the transactions would need a loop over the events inside it that counts by hand all the
    // same, and would have to go once past the last record.
    let mut next: usize = 0;
    let mut k: usize = 0;
    loop {
        let parsed = parsed_at(list, k);
        let clock = k * Frame::CLOCKS + lead_of(parsed);
        if is_due(events, next, clock) {
            if let Some(i) = place_of(owns, address_of(events, next)) {
                board.phys[i] = board.phys[i].event(code_of(events, next));
            }
            next += 1;
            continue;
        }
        let Ok(transaction) = parsed else {
            return;
        };
        let answer = if let Some(i) = taker_of(owns, transaction.address) {
            let answer = answer_of(board.phys[i], transaction);
            board.phys[i] = after_act(board.phys[i], transaction);
            answer
        } else {
            unanswered(transaction)
        };
        let at = k * Answer::BYTES;
        answer.put(&mut answers[at..at + Answer::BYTES]);
        k += 1;
    }
}
