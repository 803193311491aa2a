//! All values of a key's chains.

ghost use Rattle.std.specs.Prelude.{◌≡◌, ℕ, ◌+◌, ◌*◌, ◌<◌, ◌≤◌, length, IfOk};
ghost use Rattle.sha2.specs.Sha256.{digest_bytes};
ghost use Rattle.hash_chains.specs.Chains.{KeyParts, chain_value, chain_start};
ghost use Rattle.hash_chains.specs.Fours.{AreFourChains, HasRow};
ghost use Rattle.hash_chains.specs.Lanes.{lane};

use crate::blocks::{chain_step, four_starts};
use crate::ops::V;
use crate::values::{four_values, value_lanes};
use std::alloc::{AllocError, Global};
use std::marker::Model;

/// A value of a chain, and the seed that its start is made of.
pub type ChainValue = [u8; 32];

/// The number of chains of a key: one for each digit of a message and of its checksum.
pub const CHAINS: usize = 67;

/// The greatest digit, and so the number of steps of a whole chain.
pub const STEPS: u8 = 15;

/// How many fours hold all chains. The last of them has one chain that isn't the key's.
pub(crate) const FOURS: usize = 17;

/// What four chains have reached after a number of steps.
#[derive(Clone, Copy)]
struct Row {
    values: [ChainValue; 4],
}

/// Four chains, with a row for each number of steps from 0 to 15.
#[derive(Clone, Copy)]
struct Four {
    rows: [Row; 16],
}

/// Each value of each chain of a party's key for one lock: 34 KB in a place of their own, so that
/// who hands on the chains moves none of them.
#[derive(Drop)]
pub struct Chains {
    seed: ChainValue,
    party: u8,
    lock: u8,
    fours: Vec<Four>,
}

impl Model for Chains {
    ghost use Rattle.hash_chains.specs.Chains.{KeyParts};

    ghost Value = { KeyParts };

    ghost use Rattle.hash_chains.specs.Fours.{AreChains};

    ghost view = { λ c. record { seed = c.seed; party = c.party; lock = c.lock } };

    ghost invariant = { λ c. AreChains c.seed c.party c.lock c.fours.items };
}

// Puts into the rows what each number of steps leads to from the values in the lanes.
fn walk(rows: &mut [Row; 16], start: [V; 8])
    ensures { (n : ℕ) → n < 16 → HasRow (λ k i. chain_value k (digest_bytes (lane start i) 8)) n rows.new }
{
    let mut reached = start;
    rows[0].values = four_values(&reached);
    'steps: for n in 0..15 {
        let next = chain_step(reached);
        reached = next;
        rows[n + 1].values = four_values(&reached);
    }
}

fn put_four_chains(four: &mut Four, seed: &ChainValue, party: u8, lock: u8, first: u8)
    requires { first < 250 }
    ensures { AreFourChains seed.now party lock first four.new }
{
    let words = value_lanes(&[*seed, *seed, *seed, *seed]);
    walk(&mut four.rows, four_starts(words, party, lock, first));
}

// The place of all chains, into which none is put yet.
fn unwalked(alloc: Global) -> Result<Vec<Four>, AllocError>
    ensures { IfOk result (λ v. length v.items ≡ 17) }
{
    let row = Row {
        values: [[0; 32]; 4],
    };
    let mut fours = Vec::new(alloc);
    fours.resize(FOURS, Four { rows: [row; 16] })?;
    Ok(fours)
}

impl Chains {
    /// The chains of a party's key for a lock. They are walked where they stay.
    pub fn new(alloc: Global, seed: &ChainValue, party: u8, lock: u8) -> Result<Chains, AllocError>
        ensures { IfOk result (λ c. c ≡ record { seed = seed.now; party = party; lock = lock }) }
    {
        let mut fours = unwalked(alloc)?;
        'fours: for g in 0..FOURS {
            put_four_chains(&mut fours[g], seed, party, lock, 4 * g as u8);
        }
        Ok(Chains {
            seed: *seed,
            party,
            lock,
            fours,
        })
    }

    /// The value that stands `steps` steps behind the start of a chain.
    pub fn value(&self, chain: usize, steps: u8) -> &ChainValue
        requires chain { chain < 67 }
        requires steps { steps ≤ 15 }
        ensures { result.now ≡ chain_value steps (chain_start self.now.seed self.now.party self.now.lock chain) }
    {
        &self.fours[chain / 4].rows[steps as usize].values[chain % 4]
    }
}
