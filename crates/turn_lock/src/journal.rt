//! What a lock goes round.

ghost use Rattle.std.specs.Prelude.{◌≡◌, ℕ, ◌<◌, ◌^◌, List, length};

/// A value with a history that only grows.
pub trait Journal: Drop {
    type Entry;

    ghost history: { Self → List Self.Entry };

    /// The number of the seat that made the entry.
    ghost author: { Self.Entry → ℕ };

    /// The length of the history.
    fn count(&self) -> u64
        ensures length { result ≡ length (history self.now) }
        ensures low { result < 2 ^ 62 };
}
