//! Whether two signatures are the same.

ghost use Rattle.std.specs.Prelude.{◌≡◌, length, true};
ghost use Rattle.std.specs.Str.{bytes_eq};
ghost use Rattle.swap_base.specs.Lists.{same_list};
ghost use Rattle.swap_base.specs.Text.{joined};
ghost use Rattle.hash_signature.specs.Signature.{text_values};

use crate::sig::Sig;
use crate::{CHAINS, Digest};

/// A value has 32 bytes. Its type says so, which only clauses need.
fn show_value_size(_value: &Digest)
    ensures { length _value.now ≡ 32 }
{}

/// The bytes of a signature's values where they lie, one value after another.
fn value_bytes(values: &[Digest; CHAINS]) -> &[u8]
    ensures bytes { result.now ≡ joined values.now }
    ensures values { text_values result.now ≡ values.now }
{
    'values: for value in values {
        show_value_size(value);
    }
    values.as_flattened()
}

/// Whether both signatures are the same. Their bytes are compared many at a time, and values one
/// after another.
fn same_sig(one: &Sig, other: &Sig) -> bool
    ensures { result ≡ same_list bytes_eq one.now other.now }
{
    value_bytes(one.values()) == value_bytes(other.values())
}

fn are_same(one: &[Sig], other: &[Sig]) -> bool
    ensures { result ≡ same_list (λ s t. same_list bytes_eq s t) one.now other.now }
{
    match (one, other) {
        ([], []) => true,
        ([sig, sigs @ ..], [first, rest @ ..]) => same_sig(sig, first) && are_same(sigs, rest),
        _ => false,
    }
}

/// Whether both lists have the same signatures, in the same order.
pub fn same_sigs(one: &[Sig], other: &[Sig]) -> bool
    ensures test { result ≡ same_list (λ s t. same_list bytes_eq s t) one.now other.now }
    ensures same { result ≡ true → one.now ≡ other.now }
{
    are_same(one, other)
}
