//! The law of wallets.

ghost use Rattle.party_machine.specs.Law.{FittingIsGood};

/// If a seed has what an accepted deal states of a party, each hashkey that the party signs with it
/// is valid on every arc that enters the party, and has the origin that conduct asks for.
pub fn fitting_is_good()
    ensures { FittingIsGood }
{}
