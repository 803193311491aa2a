//! The law that makes a checksum of the digits needed.

ghost use Rattle.hash_signature.specs.Law.{ChecksumLaw};

/// Of two different messages each has a digit that is lower than the other's. So no signature over
/// one message shows, by further steps alone, a signature over another.
pub fn checksum_law()
    ensures { ChecksumLaw }
{}
