//! The law by which a round's end is known from a party's calls: a function without a body, whose
//! contract is the law.

ghost use Rattle.party_threads.specs.Race.{RestShowsInCalls};

/// Whether something is due for a party shows in its calls. If its calls keep its rules, the answer
/// over what it knows is the same by the hashkeys that it signed and by those of its first unlock
/// calls.
pub fn rest_shows_in_calls()
    ensures { RestShowsInCalls }
{}
