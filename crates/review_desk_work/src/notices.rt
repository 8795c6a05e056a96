//! What is told beside the output of a task.
ghost use Rattle.std.specs.Prelude.{◌≡◌, true};

/// Where it is told that a file has more than the tables of a desk.
pub trait Notices {
    ghost use Rattle.std.specs.Prelude.{Bool};

    /// Whether that was told.
    ghost is_warned: { Self → Bool };

    /// Tells that the tables are of another form than those that `create` makes, or that something stands beside them.
    fn warn(&mut self)
        ensures { is_warned self.new ≡ true };
}
