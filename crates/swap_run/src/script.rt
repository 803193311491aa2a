//! A script: moves that a party makes one after another.

ghost use Rattle.std.specs.Prelude.{◌≡◌, ◌<◌, ◌≤◌, ◌^◌, ℕ, length, drop, IfOk, OnOk, OnErr, All};
ghost use Rattle.ledger_core.specs.Book.{history};
ghost use Rattle.ledger_core.specs.History.{height};
ghost use Rattle.swap_job.specs.Resolved.{move_arc};
ghost use Rattle.swap_run.specs.Script.{is_wait, is_wait_done, past_waits, next_call, moves_left};
ghost use Rattle.swap_run.specs.View.{IsView, MayAnswer};
ghost use Rattle.swap_job.specs.Fitting.{IsPartyMove};

use ledger_core::{Book, Call};
use std::marker::Model;
use swap_base::{ArcId, Digest, NoMemory, PartyId};
use swap_digraph::Deal;
use swap_job::{Move, MoveList, resolve};

/// Moves, some of them made. Callers see those that are left.
#[derive(Debug, Drop)]
pub struct Script {
    moves: MoveList,
    made: usize,
}

impl Model for Script {
    ghost use Rattle.std.specs.Prelude.{List, drop};
    ghost use Rattle.swap_job.specs.declared.moves.Move.{Move};

    ghost Value = { List Move };

    ghost view = { λ s. drop s.made s.moves };

    ghost use Rattle.std.specs.Prelude.{◌≤◌, length};

    ghost invariant = { λ s. s.made ≤ length s.moves };
}

/// Whether a move waits for a height that is reached, as far as is known.
fn is_wait_done(mv: &Move, known: &Book) -> bool
    requires arc { move_arc mv.now < length known.now.histories }
    requires low { (a : ℕ) → height (history known.now.histories a) < 2 ^ 32 }
    ensures { result ≡ is_wait_done known.now.histories mv.now }
{
    match mv {
        Move::Wait { arc, height } => {
            *height <= known.histories.as_slice()[*arc as usize].height()
        }
        _ => false,
    }
}

fn is_wait(mv: &Move) -> bool
    ensures { result ≡ is_wait mv.now }
{
    match mv {
        Move::Wait { .. } => true,
        _ => false,
    }
}

/// The place of the first move from there on that isn't a wait that is over.
fn after_waits(moves: &[Move], from: usize, known: &Book) -> usize
    requires from { from ≤ length moves.now }
    requires arcs { All (λ mv. move_arc mv < length known.now.histories) (drop from moves.now) }
    requires low { (a : ℕ) → height (history known.now.histories a) < 2 ^ 32 }
    ensures later { from ≤ result }
    ensures inside { result ≤ length moves.now }
    ensures past { drop result moves.now ≡ past_waits known.now.histories (drop from moves.now) }
{
    for at in from..moves.len() {
        if !is_wait_done(&moves[at], known) {
            return at;
        }
    }
    moves.len()
}

impl Script {
    /// A script before its first move.
    pub fn new(moves: MoveList) -> Script
        ensures { result ≡ moves }
    {
        Script { moves, made: 0 }
    }

    /// The next call, if any. It passes over each wait with a reached height and stops at a wait
    /// with a later height. It resolves one other move, and uses it up. Want of memory leaves
    /// everything as it was.
    pub fn next(
        &mut self,
        deal: &Deal,
        me: PartyId,
        _turn: u32,
        known: &Book,
        seeds: &[Option<Digest>],
    ) -> Result<Option<(ArcId, Call)>, NoMemory>
        requires view { IsView deal.now me known.now.histories }
        requires moves { All (IsPartyMove deal.now seeds.now me) self.old }
        ensures exact { IfOk result (λ o. o ≡ next_call deal.now seeds.now known.now.histories self.old) }
        ensures left { OnOk result (self.new ≡ moves_left known.now.histories self.old) }
        ensures fits { IfOk result (MayAnswer deal.now me) }
        ensures err { OnErr result (self.new ≡ self.old) }
    {
        let at = after_waits(self.moves.as_slice(), self.made, known);
        let Some(mv) = self.moves.as_slice().get(at) else {
            self.made = at;
            return Ok(None);
        };
        if is_wait(mv) {
            self.made = at;
            return Ok(None);
        }
        let call = resolve(self.moves.allocator(), deal, seeds, mv, known)?;
        self.made = at + 1;
        Ok(call)
    }
}
