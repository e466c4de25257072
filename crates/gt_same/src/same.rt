ghost use Rattle.std.specs.Prelude.{◌≡◌};
ghost use Rattle.std.specs.Bool.{Decides};

/// What can be compared as a whole.
pub trait Same {
    /// Whether two of them are equal. It takes no memory.
    fn is_same(&self, other: &Self) -> bool
        ensures decides { Decides result (self.now ≡ other.now) };
}
