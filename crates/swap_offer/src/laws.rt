//! The law of offers.

ghost use Rattle.swap_offer.specs.Laws.{AdmittedIsAccepted};

/// Does nothing. Its contract is the law that a header within its limits passes its checks exactly
/// where its deal is accepted.
pub fn admitted_is_accepted()
    ensures { AdmittedIsAccepted }
{}
