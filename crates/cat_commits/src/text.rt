//! The form of the texts of commits.
ghost use Rattle.std.specs.Prelude.{◌≡◌, ◌↔◌, IsTrue, Ok, Err, OnOk, IfErr};
ghost use Rattle.std.specs.List.{list_all};
ghost use Rattle.cat_model.specs.Forms.{is_plain_byte, IsCommitText};
ghost use Rattle.cat_model.specs.Heard.{commit_text_of};

use cat_base::{MAX_COMMIT_TEXT_BYTES, Refusal};

/// Whether no byte is a control character of ASCII.
fn is_plain(text: &str) -> bool
    ensures { result ≡ list_all is_plain_byte text.now }
{
    text.as_bytes().iter().all(|b| *b >= b' ' && *b != 127)
}

/// Whether a text has the form of a commit's: at most 256 bytes, none of them a control character of ASCII.
pub fn commit_text_ok(text: &str) -> bool
    ensures { IsTrue result ↔ IsCommitText text.now }
{
    text.len() <= MAX_COMMIT_TEXT_BYTES && is_plain(text)
}

/// Judges a text that is to be a commit's: [`Refusal::Large`] where it is longer than 256 bytes, and else
/// [`Refusal::Kind`] where it has a control character of ASCII.
pub fn judge_commit_text(text: &str) -> Result<(), Refusal>
    ensures ok { OnOk result (commit_text_of text.now ≡ Ok text.now) }
    ensures err { IfErr result (λ e. commit_text_of text.now ≡ Err e) }
{
    if text.len() > MAX_COMMIT_TEXT_BYTES {
        Err(Refusal::Large)
    } else if !is_plain(text) {
        Err(Refusal::Kind)
    } else {
        Ok(())
    }
}
