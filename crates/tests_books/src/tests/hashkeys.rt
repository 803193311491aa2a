//! Hashkeys around rings, the first fault of a hashkey, and the digests of deals.

ghost use Rattle.std.specs.Prelude.{IfOk};
ghost use Rattle.swap_digraph.specs.Deal.{IsWellSized};

use crate::tests::{jobs, rings};
use hash_signature::{Sig, keygen};
use hashkey_path::{Hashkey, HashkeyAnswer, check, deal_digest, extend, first};
use hex::FromHex;
use std::alloc::Global;
use std::process::Abort;
use std::test::Fail;
use swap_base::{ArcId, Digest, Listed, PartyId, TryCopy};
use swap_digraph::{Deal, path_limit};
use swap_job::Purpose;
use swap_offer::{HeaderFault, Prepared, read_header};

/// The secret of the rings' leader.
const SECRET: Digest = [9; 32];

fn prepared(alloc: Global, header: &str) -> Result<Prepared, HeaderFault>
    ensures { IfOk result (λ p. IsWellSized p.job.deal) }
{
    read_header(alloc, 1, header.as_bytes(), Purpose::Run, &[])
}

/// The deal of an offer.
fn read(alloc: Global, header: &str) -> Result<Deal, Fail>
    ensures { IfOk result IsWellSized }
{
    match prepared(alloc, header) {
        Ok(prepared) => Ok(prepared.job.deal),
        Err(_) => Err("no deal".into()),
    }
}

fn answer(rt: &impl Abort, deal: &Deal, arc: ArcId, key: &Hashkey) -> HashkeyAnswer
    requires { IsWellSized deal.now }
{
    assert!(rt; (arc as usize) < deal.graph.arcs().len());
    assert!(rt; (key.lock as usize) < deal.leaders.len());
    check(
        deal,
        arc,
        &deal.hashlocks.as_slice()[key.lock as usize],
        key,
        0,
    )
}

fn longer(
    rt: &impl Abort,
    alloc: Global,
    deal: &Deal,
    inner: &Hashkey,
    party: PartyId,
) -> Result<Hashkey, Fail> {
    assert!(rt; party < deal.graph.n());
    assert!(rt; inner.path.len() < path_limit(deal) as usize);
    assert!(rt; inner.sigs.len() == inner.path.len());
    let (key, _public) = keygen(alloc, &[party; 32], party, inner.lock)?;
    Ok(
        extend(alloc, deal, inner, party, key)
            .ok()
            .ok_or("no memory")?,
    )
}

/// The hashkey of the ring's leader.
fn leaders_own(alloc: Global, deal: &Deal) -> Result<Hashkey, Fail>
    requires { IsWellSized deal.now }
{
    let (key, _public) = keygen(alloc, &[0; 32], 0, 0)?;
    Ok(
        first(alloc, deal, 0, &SECRET, 0, key)
            .ok()
            .ok_or("no memory")?,
    )
}

/// The hashkey of the ring's leader, extended around the ring back to the party `until`.
fn chain(rt: &impl Abort, alloc: Global, deal: &Deal, until: PartyId) -> Result<Hashkey, Fail>
    requires { IsWellSized deal.now }
{
    let mut hashkey = leaders_own(alloc, deal)?;
    for party in (until..deal.graph.n()).rev() {
        hashkey = longer(rt, alloc, deal, &hashkey, party)?;
    }
    Ok(hashkey)
}

/// The signature with a byte changed.
fn changed(sig: &Sig) -> Sig {
    let mut values = *sig.values();
    values[20][5] ^= 1;
    Sig::new(values)
}

/// Changes the signature at that place, or takes the last away where there is none.
fn edit(sigs: &mut Vec<Sig>, place: usize) {
    if place < sigs.len() {
        sigs[place] = changed(&sigs[place]);
    } else {
        let _last = sigs.pop();
    }
}

/// The hashkey with the signature at that place changed, or without its last where there is none.
fn edited(key: &Hashkey, place: usize) -> Result<Hashkey, Fail> {
    let Hashkey {
        lock,
        secret,
        path,
        sigs,
    } = key.copy()?;
    let mut sigs = sigs.into_vec();
    edit(&mut sigs, place);
    Ok(Hashkey {
        lock,
        secret,
        path,
        sigs: Listed::new(sigs),
    })
}

/// A hashkey has `length` signatures, and is valid on the arc that enters the party `until`.
fn is_valid(rt: &impl Abort, deal: &Deal, key: &Hashkey, until: PartyId, length: usize)
    requires { IsWellSized deal.now }
{
    assert!(rt; key.path.len() == length);
    assert!(rt; 0 < until);
    assert!(rt; answer(rt, deal, until - 1, key) == HashkeyAnswer::Valid);
}

/// The hashkey that went around to the party `until` is valid there.
fn is_valid_after_steps(
    rt: &impl Abort,
    alloc: Global,
    deal: &Deal,
    until: PartyId,
    length: usize,
) -> Result<(), Fail>
    requires { IsWellSized deal.now }
{
    let key = chain(rt, alloc, deal, until)?;
    is_valid(rt, deal, &key, until, length);
    Ok(())
}

/// The hashkey of the ring of three, after each of its steps.
fn are_valid_after_steps(rt: &impl Abort, alloc: Global, deal: &Deal) -> Result<(), Fail>
    requires { IsWellSized deal.now }
{
    is_valid_after_steps(rt, alloc, deal, 3, 1)?;
    is_valid_after_steps(rt, alloc, deal, 2, 2)?;
    is_valid_after_steps(rt, alloc, deal, 1, 3)
}

#[test]
fn hashkeys_go_around_a_ring(rt: HostRuntime) -> Result<(), Fail> {
    let ring = read(rt.alloc(), rings::three())?;
    are_valid_after_steps(&rt, rt.alloc(), &ring)
}

#[test]
fn a_hashkey_goes_around_the_longest_ring(rt: HostRuntime) -> Result<(), Fail> {
    let ring = read(rt.alloc(), rings::twenty_four())?;
    is_valid_after_steps(&rt, rt.alloc(), &ring, 1, 24)
}

fn is_answered(rt: &impl Abort, deal: &Deal, arc: ArcId, key: &Hashkey, wanted: HashkeyAnswer)
    requires { IsWellSized deal.now }
{
    assert!(rt; answer(rt, deal, arc, key) == wanted, "{wanted:?}");
}

/// Another secret is found before all else.
fn finds_the_secret(rt: &impl Abort, deal: &Deal, key: &Hashkey) -> Result<(), Fail>
    requires { IsWellSized deal.now }
{
    let mut other = key.copy()?;
    other.secret[31] = 8;
    is_answered(rt, deal, 0, &other, HashkeyAnswer::WrongSecret);
    Ok(())
}

/// A path that goes around twice.
fn finds_the_path(rt: &impl Abort, alloc: Global, deal: &Deal, key: &Hashkey) -> Result<(), Fail>
    requires { IsWellSized deal.now }
{
    let around = longer(rt, alloc, deal, key, 0)?;
    is_answered(rt, deal, 2, &around, HashkeyAnswer::WrongPath);
    Ok(())
}

/// What is found where the signature at that place is changed, or the last is missing.
fn finds(
    rt: &impl Abort,
    deal: &Deal,
    key: &Hashkey,
    place: usize,
    wanted: HashkeyAnswer,
) -> Result<(), Fail>
    requires { IsWellSized deal.now }
{
    let other = edited(key, place)?;
    is_answered(rt, deal, 0, &other, wanted);
    Ok(())
}

/// Each fault of a hashkey that goes around the ring of three.
fn finds_the_faults(rt: &impl Abort, alloc: Global, deal: &Deal, key: &Hashkey) -> Result<(), Fail>
    requires { IsWellSized deal.now }
{
    finds_the_secret(rt, deal, key)?;
    // A path of another arc's, one that goes around twice, and one with fewer signatures.
    is_answered(rt, deal, 1, key, HashkeyAnswer::WrongPath);
    finds_the_path(rt, alloc, deal, key)?;
    finds(rt, deal, key, 3, HashkeyAnswer::WrongPath)?;
    // The wrong signature at the least place is found; a signature is part of what the one before
    // it signs.
    finds(rt, deal, key, 0, HashkeyAnswer::WrongSignature(0))?;
    finds(rt, deal, key, 1, HashkeyAnswer::WrongSignature(0))?;
    finds(rt, deal, key, 2, HashkeyAnswer::WrongSignature(1))
}

fn finds_the_faults_around(rt: &impl Abort, alloc: Global, deal: &Deal) -> Result<(), Fail>
    requires { IsWellSized deal.now }
{
    let key = chain(rt, alloc, deal, 1)?;
    finds_the_faults(rt, alloc, deal, &key)
}

#[test]
fn the_first_fault_is_named(rt: HostRuntime) -> Result<(), Fail> {
    let ring = read(rt.alloc(), rings::three())?;
    finds_the_faults_around(&rt, rt.alloc(), &ring)
}

fn to_digest(alloc: Global, header: &str) -> Result<Digest, Fail> {
    let deal = read(alloc, header)?;
    Ok(deal_digest(&deal))
}

/// The digest of the offer's deal is that of the text.
fn has_digest(rt: &impl Abort, alloc: Global, header: &str, text: &str) -> Result<(), Fail> {
    let wanted = <Digest as FromHex>::from_hex(text)?;
    let digest = to_digest(alloc, header)?;
    assert!(rt; digest == wanted, "{text}");
    Ok(())
}

/// With that version, the deal of three parties with hashkeys has the digest of the text.
fn has_text_digest(rt: &impl Abort, alloc: Global, version: &str, text: &str) -> Result<(), Fail> {
    let header = jobs::THREE.replacen(alloc, "\"swap\":1", version, 1)?;
    has_digest(rt, alloc, header.as_str(), text)
}

/// What another program gives.
#[test]
fn digests_of_deals(rt: HostRuntime) -> Result<(), Fail> {
    let timelocks = "2ce3d3136bbeaefb32c182bd9065429cfa6dba80a175ff6587e4d9419f6f1aa8";
    has_digest(&rt, rt.alloc(), jobs::AROUND, timelocks)?;
    let hashkeys = "f9c2c81c2fb42fd1ac0938069fecd63a5c984c3f4ed0c3e941f7d04c8441043d";
    has_digest(&rt, rt.alloc(), rings::three(), hashkeys)?;
    let first = "782fe71bee4ff7a857bfbfa864d376ab6cda86d211b5814c16073d2acebac479";
    has_text_digest(&rt, rt.alloc(), "\"swap\":1", first)?;
    let second = "6b24ffde0357b0300f14fc7bd47c875d18e2e9d8835f11011187b25dfc64a754";
    has_text_digest(&rt, rt.alloc(), "\"swap\":2", second)
}
