//! The digits of a message: one for each chain.

ghost use Rattle.std.specs.Prelude.{◌≡◌, ◌-◌, ◌<◌, ◌≤◌, ℕ, slice_index};
ghost use Rattle.hash_signature.specs.Signature.{digits};

use crate::{CHAINS, Digest};
use hash_chains::STEPS;

/// The 64 digits of 4 bits of a message and the three of its checksum.
pub(crate) fn digits(message: &Digest) -> [u8; CHAINS]
    ensures value { result ≡ digits message.now }
    ensures small { (j : ℕ) → slice_index result j ≤ 15 }
{
    let mut out = [0u8; CHAINS];
    let mut sum: u16 = 0;
    'bytes: for i in 0..32 {
        let high = message[i] / 16;
        let low = message[i] % 16;
        out[2 * i] = high;
        out[2 * i + 1] = low;
        sum += (15 - high) as u16 + (15 - low) as u16;
    }
    out[64] = (sum / 256) as u8;
    out[65] = (sum / 16 % 16) as u8;
    out[66] = (sum % 16) as u8;
    out
}

/// How many steps are left of each chain, given how many were taken.
pub(crate) fn rests(steps: &[u8; CHAINS]) -> [u8; CHAINS]
    requires { (j : ℕ) → slice_index steps.now j ≤ 15 }
    ensures { (j : ℕ) → j < 67 → slice_index result j ≡ 15 - slice_index steps.now j }
{
    let mut rests = [0u8; CHAINS];
    'chains: for j in 0..CHAINS {
        rests[j] = STEPS - steps[j];
    }
    rests
}
