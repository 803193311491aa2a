//! What a coalition of parties gains by leaving the protocol, alone or together: nothing, as long
//! as nobody outside it ends underwater (Herlihy 2018, section 3: a uniform protocol on a strongly
//! connected digraph is atomic).
//!
//! Read `specs/Coalition.antt`: it has the words and the laws.
#![tactic(auto)]

ghost use Rattle.coalition_laws.specs.Coalition.{CoalitionsGainNothing, PayersArePaid, ReceiversPay, GotIsTriggered};
ghost use Rattle.coalition_laws.specs.Coalition.{LonersGainNothing, AllOrNothing};
ghost use Rattle.coalition_laws.specs.Coalition.{CheatersGainNothing, CheaterGainsNothing, UnharmedTradeAllOrNothing};

/// A coalition gains nothing, whatever its parties do, as long as nobody outside it is underwater:
/// neither a free ride nor a discount. Whoever outside it stands before a payer was paid, and
/// whoever outside it stands behind one that wasn't paid has paid nothing.
pub fn coalitions_gain_nothing()
    ensures gains { CoalitionsGainNothing }
    ensures paid { PayersArePaid }
    ensures pays { ReceiversPay }
    ensures got { GotIsTriggered }
{}

/// Where nobody else is underwater, a party ends neither with a free ride nor with a discount.
/// Where nobody at all is, either nobody traded or everybody has the whole deal.
pub fn loners_gain_nothing()
    ensures alone { LonersGainNothing }
    ensures all { AllOrNothing }
{}

/// The same by what is found: nobody gains by cheating, alone or together, unless somebody else,
/// who was to keep to the protocol, was in breach, late or forged.
pub fn cheaters_gain_nothing()
    ensures together { CheatersGainNothing }
    ensures alone { CheaterGainsNothing }
    ensures all { UnharmedTradeAllOrNothing }
{}
