ghost use Rattle.std.specs.Prelude.{◌∷◌, [], ℕ, List, Option};
ghost use Rattle.live_link.specs.Wire.{AreRead};

/// A clock that counts seconds, from any start. It may stand, or go back.
pub trait Seconds {
    /// What it showed whenever it was read, in order, where it tells.
    ghost read: { Self → Option (List ℕ) };

    /// The second that it shows now.
    fn now(&mut self) -> u64
        ensures { AreRead (read self.old) (read self.new) (result ∷ []) };
}
