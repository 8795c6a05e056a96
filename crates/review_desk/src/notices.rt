//! What standard error is told beside the fault that ends a job.

ghost use Rattle.std.specs.Prelude.{◌≡◌, false};

use review_desk_work::Notices;

const WARNING: &str =
    "warning: this file has more than the tables that init makes, or has them in another form; see \"Something beside the tables\" in docs/operations.md";

/// Standard error, and whether it was warned there.
#[derive(Drop)]
pub struct StandardError<'a> {
    rt: &'a HostRuntime,
    is_warned: bool,
}

impl StandardError<'_> {
    /// Standard error, where nothing was told yet.
    pub fn new(rt: &HostRuntime) -> StandardError<'_>
        ensures { result.is_warned ≡ false }
    {
        StandardError {
            rt,
            is_warned: false,
        }
    }
}

impl Notices for StandardError<'_> {
    ghost is_warned = { λ e. e.is_warned };

    fn warn(&mut self) {
        if self.is_warned {
            return;
        }
        // Where standard error is closed there is nobody to warn.
        let _ = eprintln!(self.rt; "review_desk: {WARNING}");
        self.is_warned = true;
    }
}
