//! The numbers of parties, arcs and locks, and digests.

/// A party's number, by its place in the offer, from 0.
pub type PartyId = u8;

/// An arc's number, by its place in the offer, from 0.
pub type ArcId = u8;

/// A lock's number; lock `i` belongs to the `i`-th leader.
pub type LockId = u8;

/// A digest of SHA-256 (FIPS 180-4), or a secret of as many bytes.
pub type Digest = [u8; 32];
