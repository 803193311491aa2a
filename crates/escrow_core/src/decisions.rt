//! Parts of the table of replies that are decided over several lines.

ghost use Rattle.std.specs.Prelude.{◌≡◌, ◌<◌, length, not, IfSome, IsTrue};
ghost use Rattle.std.specs.List.{position_from};
ghost use Rattle.swap_digraph.specs.Deal.{IsWellSized};
ghost use Rattle.hashkey_path.specs.LastSignatures.{is_last_signed};
ghost use Rattle.escrow_core.specs.Table.{first_row};
ghost use Rattle.escrow_core.specs.Value.{AreFitting};
ghost use Rattle.escrow_core.specs.ContractRows.{key_rows};

use crate::reply::Reply;
use crate::terms::Terms;
use crate::times::last_unlock;
use hashkey_path::{Hashkey, HashkeyAnswer, check};
use swap_base::ArcId;
use swap_digraph::Deal;

/// The least closed lock.
pub(crate) fn first_closed(opened: &[bool]) -> Option<usize>
    ensures exact { result ≡ position_from not 0 opened.now }
    ensures within { IfSome result (λ lock. lock < length opened.now) }
{
    opened.iter().position(|open| !*open)
}

/// What is wrong with a hashkey, or whether it comes too late.
pub(crate) fn key_reply(
    deal: &Deal,
    arc: ArcId,
    terms: &Terms,
    height: u32,
    key: &Hashkey,
    verified: usize,
) -> Reply
    requires sized { IsWellSized deal.now }
    requires arc { arc < length deal.now.graph.arcs }
    requires fitting { AreFitting deal.now terms.now }
    requires lock { key.now.lock < length deal.now.leaders }
    requires known { IsTrue (is_last_signed verified deal.now key.now) }
    ensures { result ≡ first_row (key_rows deal.now arc terms.now height key.now) }
{
    let hashlock = terms.locks.get(key.lock);
    match check(deal, arc, &hashlock, key, verified) {
        HashkeyAnswer::WrongSecret => Reply::WrongSecret,
        HashkeyAnswer::WrongPath => Reply::WrongPath,
        HashkeyAnswer::WrongSignature(_) => Reply::WrongSignature,
        HashkeyAnswer::Valid => {
            let last = last_unlock(deal.mode, terms, key);
            if last < height as u64 {
                Reply::TooLate(last)
            } else {
                Reply::Accepted
            }
        }
    }
}
