//! What people write: subjects, reasons and messages.
ghost use Rattle.std.specs.{List.list_all, Prelude.◌≡◌, Prelude.◌==◌, Prelude.not};
ghost use Rattle.review_names.specs.Forms.{is_line, is_message};

use crate::forms::{Form, Name};
use crate::places::has_no_control;

/// The form of a change's subject: 1 to 512 bytes of UTF-8 without the control characters of ASCII.
#[derive(Drop)]
pub struct OfSubject;

/// The form of a reason, which is that of a subject.
#[derive(Drop)]
pub struct OfReason;

/// The form of a message: 0 to 8,192 bytes of UTF-8 without U+0000.
#[derive(Drop)]
pub struct OfMessage;

/// The subject of a change.
pub type Subject = Name<OfSubject>;

/// Why an account is called to a change.
pub type Reason = Name<OfReason>;

/// The message of a review or a comment.
pub type Message = Name<OfMessage>;

#[tactic(auto, unfolding(crate::specs::Forms::is_line))]
fn is_line(text: &str) -> bool
    ensures { result ≡ is_line text.now }
{
    let shown = has_no_control(text);
    let length = text.len();
    1 <= length && length <= 512 && shown
}

fn has_no_zero(text: &str) -> bool
    ensures { result ≡ list_all (λ c. not (c == 0)) text.now }
{
    text.as_bytes().iter().all(|byte| *byte != 0)
}

impl Form for OfSubject {
    ghost is_form = { is_line };

    fn is_met(text: &str) -> bool {
        is_line(text)
    }
}

impl Form for OfReason {
    ghost is_form = { is_line };

    fn is_met(text: &str) -> bool {
        is_line(text)
    }
}

impl Form for OfMessage {
    ghost is_form = { is_message };

    #[tactic(auto, unfolding(crate::specs::Forms::is_message))]
    fn is_met(text: &str) -> bool {
        let clean = has_no_zero(text);
        text.len() <= 8192 && clean
    }
}
