//! The hashkeys that a party signed.

use hashkey_path::Hashkey;
use swap_base::{Listed, Shared};

/// For each lock the hashkey that was signed, if any.
#[derive(Debug, Drop)]
pub struct Signed {
    pub keys: Listed<Option<Shared<Hashkey>>>,
}
