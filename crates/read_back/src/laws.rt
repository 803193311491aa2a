//! The laws of the texts that `keys` and `deal` write.

ghost use Rattle.read_back.specs.Texts.{DealsOfRowsAreMade, KeysGiveRows};

/// `keys` writes of a seed and an offer the row that the seed gives the party.
pub fn keys_give_rows()
    ensures { KeysGiveRows }
{}

/// `deal` writes of the offer and everybody's rows the header line of the made job.
pub fn deals_of_rows_are_made()
    ensures { DealsOfRowsAreMade }
{}
