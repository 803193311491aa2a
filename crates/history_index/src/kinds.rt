//! The kinds of call that one party made.

ghost use Rattle.std.specs.Prelude.{◌≡◌, IsTrue, length};
ghost use Rattle.history_index.specs.Numbers.{names_lock};
ghost use Rattle.history_index.specs.Kept.{has_kind, with_call, no_kinds};

use ledger_core::{Call, CallKind, What};

/// Which kinds of call a party made, whatever the replies.
#[derive(Clone, Copy, Debug)]
pub(crate) struct Kinds {
    pub publish: bool,
    /// By lock.
    pub unlock: [bool; 8],
    pub claim: bool,
    pub refund: bool,
}

impl Kinds {
    pub fn new() -> Kinds
        ensures { result ≡ no_kinds }
    {
        Kinds {
            publish: false,
            unlock: [false; 8],
            claim: false,
            refund: false,
        }
    }

    pub fn has(&self, kind: CallKind) -> bool
        requires { length self.now.unlock ≡ 8 }
        ensures { result ≡ has_kind self.now kind }
    {
        match kind {
            CallKind::Publish => self.publish,
            CallKind::Unlock(lock) => lock < 8 && self.unlock[lock as usize],
            CallKind::Claim => self.claim,
            CallKind::Refund => self.refund,
        }
    }

    /// Takes in what an entry of the party is.
    pub fn add(&mut self, what: &What)
        requires places { length self.old.unlock ≡ 8 }
        requires lock { IsTrue (names_lock what.now) }
        ensures { self.new ≡ with_call self.old what.now }
    {
        match what {
            What::Call(Call::Publish(_)) => self.publish = true,
            What::Call(Call::Unlock(key)) => self.unlock[key.lock as usize] = true,
            What::Call(Call::Claim) => self.claim = true,
            What::Call(Call::Refund) => self.refund = true,
            _ => {}
        }
    }
}
