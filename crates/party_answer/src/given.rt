//! What is answered.

use swap_base::ByteText;

/// What is answered.
#[derive(Debug, Drop)]
pub struct Answer {
    pub text: ByteText,
    /// A `stale`, an `unkept` or a `bad` line stands in it.
    pub warns: bool,
}
