//! What is free on each chain.

ghost use Rattle.std.specs.Prelude.{◌≡◌, ◌<◌, ◌++◌, OnOk, length};
ghost use Rattle.swap_base.specs.Text.{lines};
ghost use Rattle.swap_many.specs.Value.{many_kept};
ghost use Rattle.many_text.specs.ManyText.{account_text, kept_chain_text};
ghost use Rattle.many_text.specs.Shown.{AreChainsShown, IsChainShown};

use swap_base::{ByteText, Listed, NoMemory, Piece, put};
use swap_many::ManyWorld;

fn put_account(out: &mut Vec<u8>, name: &[u8], units: u64) -> Result<(), NoMemory>
    ensures { OnOk result (out.new.items ≡ out.old.items ++ account_text (λ x. units) 0 name.now) }
{
    put(
        out,
        &[
            Piece::Text(" "),
            Piece::Bytes(name),
            Piece::Text(" "),
            Piece::Number(units),
        ],
    )
}

fn put_accounts(
    out: &mut Vec<u8>,
    chain: u8,
    names: &[ByteText],
    world: &ManyWorld,
) -> Result<(), NoMemory>
    requires here { chain < length world.now.openings }
    requires shown { IsChainShown world.now chain names.now }
    ensures { OnOk result (out.new.items ≡ out.old.items ++ lines (account_text ((many_kept world.now).free chain)) 0 names.now) }
{
    'accounts: for account in 0..names.len() as u8 {
        let units = world.free(chain, account);
        put_account(out, names[account as usize].as_slice(), units)?;
    }
    Ok(())
}

#[tactic(auto, unfolding(crate::specs::ManyText::chain_text))]
fn put_chain(
    out: &mut Vec<u8>,
    chain: u8,
    names: &[ByteText],
    world: &ManyWorld,
) -> Result<(), NoMemory>
    requires here { chain < length world.now.openings }
    requires shown { IsChainShown world.now chain names.now }
    ensures { OnOk result (out.new.items ≡ out.old.items ++ kept_chain_text (many_kept world.now) chain names.now) }
{
    put(
        out,
        &[
            Piece::Text("chain "),
            Piece::Number(chain as u64),
            Piece::Text(" height "),
            Piece::Number(world.height(chain) as u64),
        ],
    )?;
    put_accounts(out, chain, names, world)?;
    put(out, &[Piece::Text("\n")])
}

/// The lines of the chains.
pub(crate) fn put_chains(
    out: &mut Vec<u8>,
    names: &[Listed<ByteText>],
    world: &ManyWorld,
) -> Result<(), NoMemory>
    requires shown { AreChainsShown world.now names.now }
    ensures { OnOk result (out.new.items ≡ out.old.items ++ lines (kept_chain_text (many_kept world.now)) 0 names.now) }
{
    let count = world.chains();
    'each: for chain in 0..count {
        put_chain(out, chain, names[chain as usize].as_slice(), world)?;
    }
    Ok(())
}
