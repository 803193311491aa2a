//! What each step at the table tells the seat that makes it.

use crate::journal::Journal;
use crate::view::View;
use atomic_table::{Join, Play, Split};

/// A further seat that knows the same.
pub(crate) struct Same;

impl<E> Split<View<E>> for Same {
    ghost left = { λ v. v };

    ghost right = { λ v. v };
}

/// One seat with the numbers of two.
pub(crate) struct Glue;

impl<E> Join<View<E>> for Glue {
    ghost use Rattle.turn_lock.specs.Turns.{joined_view, spent};

    ghost both = { joined_view };

    ghost spent = { spent };
}

pub(crate) struct Claim;

impl<T, E> Play<Option<T>, View<E>> for Claim {
    ghost use Rattle.turn_lock.specs.Turns.{Claims};

    ghost then = { Claims };
}

/// The claim of the number 0, which has the turn with it.
pub(crate) struct ClaimFirst;

impl<T, E> Play<Option<T>, View<E>> for ClaimFirst {
    ghost use Rattle.turn_lock.specs.Turns.{ClaimsFirst};

    ghost then = { ClaimsFirst };
}

pub(crate) struct Take;

impl<T: Journal> Play<Option<T>, View<T::Entry>> for Take {
    ghost use Rattle.turn_lock.specs.Turns.{Takes};

    ghost then = { Takes T.history T.author };
}

/// A seat says that it waits for the turn.
pub(crate) struct Ask;

impl<T, E> Play<Option<T>, View<E>> for Ask {
    ghost use Rattle.turn_lock.specs.Turns.{Asks};

    ghost then = { Asks };
}

pub(crate) struct Give;

impl<T: Journal> Play<Option<T>, View<T::Entry>> for Give {
    ghost use Rattle.turn_lock.specs.Turns.{Gives};

    ghost then = { Gives T.history };
}
