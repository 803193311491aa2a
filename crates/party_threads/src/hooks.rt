//! What a program hands to a race.

/// What a race calls back: `strategies` answers for each party that follows a strategy, and each
/// turn passes `gate` first.
#[derive_where(Clone, Copy)]
pub struct Hooks<'a, A, G> {
    pub strategies: &'a A,
    pub gate: &'a G,
}
