//! What a desk says of itself.

use review_words::Epoch;

/// What a desk says of itself: how many requests were ever stored, and which epoch is the least open one.
#[derive(Clone, Copy, PartialEq, Eq)]
pub struct Numbers {
    pub requests: u64,
    pub least: Epoch,
}

impl Numbers {
    ghost use Rattle.std.specs.Prelude.{◌≡◌, ◌+◌, ◌<◌, ◌≤◌, ◌^◌, IfSome, IfNone};
    ghost use Rattle.review_sql_writes.specs.Commits.{with_request};

    /// What a desk without requests says.
    pub fn first() -> Numbers
        ensures { result ≡ record { requests = 0; least = 0 } }
    {
        Numbers {
            requests: 0,
            least: Epoch::first(),
        }
    }

    /// What the desk says once one request more is stored, with this epoch as the least open one, if one is named; nothing where so many are no `u64`.
    pub fn with_request(&self, epoch: Option<Epoch>) -> Option<Numbers>
        ensures value { IfSome result (λ numbers. numbers ≡ with_request self.now epoch) }
        ensures room { IfSome result (λ numbers. self.now.requests + 1 < 2 ^ 64) }
        ensures none { IfNone result (2 ^ 64 ≤ self.now.requests + 1) }
    {
        let requests = self.requests.checked_add(1)?;
        let least = epoch.unwrap_or(self.least);
        Some(Numbers { requests, least })
    }
}
