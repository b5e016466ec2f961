// The line of a verdict on a certificate. It takes no memory.
ghost use Rattle.std.specs.Prelude.{◌≡◌, ◌≤◌, length};
ghost use Rattle.local_std.specs.Checked.{reason_text as text_of_reason, verdict_line as line_of_verdict, verdict_status as status_of_verdict};

use crate::outcome::Status;
use crate::refusal::{Line, push_number};
use arrayvec::ArrayString;
use cert_check::{Reason, Verdict};

/// The line.
pub fn verdict_line(verdict: Verdict) -> Line
    ensures { result.bytes ≡ line_of_verdict verdict }
{
    let mut text = ArrayString::new();
    match verdict {
        Verdict::Accepted { blocks } => {
            text.push_str("accepted ");
            push_number(&mut text, u64::from(blocks));
        }
        Verdict::Rejected { line, reason } => {
            text.push_str("rejected line ");
            push_number(&mut text, line);
            text.push_str(": ");
            text.push_str(reason_text(reason));
        }
    }
    text.push_str("\n");
    text
}

/// The status that comes with it.
pub fn verdict_status(verdict: Verdict) -> Status
    ensures { result ≡ status_of_verdict verdict }
{
    match verdict {
        Verdict::Accepted { .. } => Status::Fits,
        Verdict::Rejected { .. } => Status::Rejected,
    }
}

/// The word of a reason.
fn reason_text(reason: Reason) -> &'static str
    ensures text { result.now ≡ text_of_reason reason }
    ensures few { length result.now ≤ 10 }
{
    match reason {
        Reason::Form => "form",
        Reason::Item => "item",
        Reason::Known => "known",
        Reason::Corner => "corner",
        Reason::Run => "run",
        Reason::Poly => "poly",
        Reason::Unsettled => "unsettled",
        Reason::Verdict => "verdict",
        Reason::Basis => "basis",
        Reason::HighCorner => "highcorner",
        Reason::Stair => "stair",
    }
}
