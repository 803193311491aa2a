//! Whether two replies are the same.

ghost use Rattle.std.specs.Prelude.{◌≡◌, ◌↔◌, true};
ghost use Rattle.swap_auditor.specs.Replies.{same_reply, is_after_check};

use escrow_core::Reply;

/// Whether both are the same reply, with the same number.
pub(crate) fn same_reply(one: Reply, other: Reply) -> bool
    ensures value { result ≡ same_reply one other }
    ensures same { (result ≡ true) ↔ (one ≡ other) }
{
    one == other
}

/// Whether a ledger gives the reply to an unlock only where the hashkey's signatures are valid.
pub(crate) fn is_after_check(reply: Reply) -> bool
    ensures { result ≡ is_after_check reply }
{
    matches!(reply, Reply::Accepted | Reply::TooLate(_))
}
