//! What is answered where a call of the ledger tells a number.
ghost use Rattle.std.specs.Prelude.{◌≡◌};
ghost use Rattle.cat_ledger.specs.Answering.{number_reply};
ghost use Rattle.cat_protocol.specs.replies.Reply.{reply_of};

use cat_base::Refusal;
use cat_protocol::replies::Answer;

/// What a call of the ledger is answered that tells a number.
pub fn number_told(number: Result<u64, Refusal>) -> Result<Answer, Refusal>
    ensures { reply_of result ≡ number_reply number }
{
    match number {
        Ok(number) => Ok(Answer::Number(number)),
        Err(refusal) => Err(refusal),
    }
}

/// So of how many snapshots of a commit are left.
pub fn left_told(left: Result<u32, Refusal>) -> Result<Answer, Refusal>
    ensures { reply_of result ≡ number_reply left }
{
    match left {
        Ok(left) => Ok(Answer::Number(left as u64)),
        Err(refusal) => Err(refusal),
    }
}
