//! Calls, read part by part.

ghost use Rattle.std.specs.Prelude.{◌≡◌, ◌<◌, All, length};
ghost use Rattle.typed_books.specs.Typed.{IsDigest, IsHashkey, IsSignature, IsTerms, IsTypedCall};

use escrow_core::{LockList, Terms};
use hash_signature::{CHAINS, Sig};
use hashkey_path::Hashkey;
use ledger_core::Call;
use swap_base::{Digest, PartyId};

fn visit_digest(digest: &Digest)
    ensures { IsDigest digest.now }
{
    'bytes: for byte in digest {
        let _byte = *byte;
    }
}

fn visit_values(values: &[Digest; CHAINS])
    ensures size { length values.now ≡ 67 }
    ensures values { All IsDigest values.now }
{
    'values: for value in values {
        visit_digest(value);
    }
}

fn visit_signature(sig: &Sig)
    ensures { IsSignature sig.now }
{
    visit_values(sig.values());
}

fn visit_signatures(sigs: &[Sig])
    ensures { All IsSignature sigs.now }
{
    'sigs: for sig in sigs {
        visit_signature(sig);
    }
}

fn visit_path(path: &[PartyId])
    ensures { All (λ p. p < 256) path.now }
{
    'parties: for party in path {
        let _party = *party;
    }
}

fn visit_hashkey(key: &Hashkey)
    ensures { IsHashkey key.now }
{
    let _lock = key.lock;
    visit_digest(&key.secret);
    visit_path(key.path.as_slice());
    visit_signatures(key.sigs.as_slice());
}

fn visit_locks(locks: &LockList)
    ensures { All IsDigest locks.now }
{
    'locks: for lock in 0..locks.len() {
        visit_digest(&locks.get(lock));
    }
}

fn visit_terms(terms: &Terms)
    ensures { IsTerms terms.now }
{
    let _start = terms.start;
    let _delta = terms.delta;
    let _bound = terms.bound;
    let _timelock = terms.timelock;
    let _amount = terms.amount;
    visit_locks(&terms.locks);
}

pub(crate) fn visit_call(call: &Call)
    ensures { IsTypedCall call.now }
{
    match call {
        Call::Publish(terms) => visit_terms(terms),
        Call::Unlock(key) => visit_hashkey(key),
        Call::Claim => {}
        Call::Refund => {}
        Call::Transfer(to, units) => {
            let _to = *to;
            let _units = *units;
        }
    }
}
