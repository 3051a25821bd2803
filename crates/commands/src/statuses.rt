ghost use Rattle.std.specs.Prelude.{◌≡◌};
ghost use Rattle.model.specs.Commands.{verdict_status, display_status};
ghost use Rattle.replies.specs.Statuses.{number};

use replies::status::Status;

// Verdict and display result stay the numbers that C lends; what is lent is refused where they are none of these.

// The status of a verdict: denied, not enrolled, cancelled, no reply, locked out.
pub fn verdict_status(verdict: u32) -> Status
    ensures { number result ≡ verdict_status verdict }
{
    match verdict {
        1 => Status::AccessDenied,
        2 => Status::UserNotEnrolled,
        3 => Status::UserCancelled,
        4 => Status::UserNotResponsive,
        5 => Status::UserLockout,
        _ => Status::Ok,
    }
}

// The status of a display result: cancelled, cannot render, no reply.
pub fn display_status(display: u32) -> Status
    ensures { number result ≡ display_status display }
{
    match display {
        1 => Status::UserCancelled,
        2 => Status::CannotRenderTransactionContent,
        3 => Status::UserNotResponsive,
        _ => Status::Ok,
    }
}
