//! The law of the bytes that a deal's id is taken of.

ghost use Rattle.hashkey_path.specs.Law.{DealBytesTellApart};

/// Deals of the same bytes are the same but for their ids. So the bytes tell different deals apart,
/// and where two of them have one id, two different texts have one digest.
pub fn deal_bytes_tell_apart()
    ensures { DealBytesTellApart }
{}
