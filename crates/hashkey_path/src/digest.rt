//! The digest that names a deal.

ghost use Rattle.std.specs.Prelude.{◌≡◌, ◌<◌, ℕ, List, length};
ghost use Rattle.std.specs.List.{flat_map};
ghost use Rattle.swap_base.specs.Text.{joined};
ghost use Rattle.swap_digraph.specs.Deal.{IsWellSized};
ghost use Rattle.swap_digraph.specs.Graph.{arcs};
ghost use Rattle.hashkey_path.specs.Digest.{arc_bytes, deal_id, head_bytes, key_bytes, leader_bytes, time_bytes, Feeds};

use sha2::{Digest as Hasher, Sha256};
use swap_base::{Digest, Listed};
use swap_digraph::{Deal, Mode, Version};

fn feed_head(hasher: &mut Sha256, deal: &Deal)
    requires { IsWellSized deal.now }
    ensures { Feeds hasher.old hasher.new (head_bytes deal.now) }
{
    let version = match deal.version {
        Version::One => 1u8,
        Version::Two => 2,
    };
    let mode = match deal.mode {
        Mode::Timelocks => 0u8,
        Mode::Hashkeys => 1,
    };
    let arcs = deal.graph.arcs().len() as u8;
    hasher.update([version, mode, deal.graph.n(), arcs]);
}

fn feed_arc(hasher: &mut Sha256, deal: &Deal, arc: usize)
    requires sized { IsWellSized deal.now }
    requires arc { arc < length deal.now.graph.arcs }
    ensures { Feeds hasher.old hasher.new (arc_bytes deal.now arc) }
{
    let ends = deal.graph.arcs()[arc];
    hasher.update([ends.from, ends.to]);
    hasher.update(deal.amounts.as_slice()[arc].to_be_bytes());
    hasher.update(deal.timelocks.as_slice()[arc].to_be_bytes());
}

fn feed_arcs(hasher: &mut Sha256, deal: &Deal)
    requires { IsWellSized deal.now }
    ensures { Feeds hasher.old hasher.new (flat_map (arc_bytes deal.now) (arcs deal.now.graph)) }
{
    let count = deal.graph.arcs().len();
    'arcs: for arc in 0..count {
        feed_arc(hasher, deal, arc);
    }
}

fn feed_leaders(hasher: &mut Sha256, deal: &Deal)
    requires { IsWellSized deal.now }
    ensures { Feeds hasher.old hasher.new (leader_bytes deal.now) }
{
    let leaders = deal.leaders.as_slice();
    hasher.update([leaders.len() as u8]);
    hasher.update(leaders);
}

fn feed_times(hasher: &mut Sha256, deal: &Deal)
    ensures { Feeds hasher.old hasher.new (time_bytes deal.now) }
{
    hasher.update(deal.start.to_be_bytes());
    hasher.update(deal.delta.to_be_bytes());
    hasher.update(deal.bound.to_be_bytes());
}

fn feed_digests(hasher: &mut Sha256, digests: &[Digest])
    ensures { Feeds hasher.old hasher.new (joined digests.now) }
{
    'digests: for digest in digests {
        hasher.update(digest);
    }
}

fn feed_keys(hasher: &mut Sha256, deal: &Deal)
    ensures { Feeds hasher.old hasher.new (key_bytes deal.now.mode deal.now.keys) }
{
    match deal.mode {
        Mode::Timelocks => {}
        Mode::Hashkeys => feed_rows(hasher, deal.keys.as_slice()),
    }
}

fn feed_rows(hasher: &mut Sha256, rows: &[Listed<Digest>])
    ensures { Feeds hasher.old hasher.new (flat_map joined rows.now) }
{
    'rows: for row in rows {
        feed_digests(hasher, row.as_slice());
    }
}

/// The digest of all that a deal says but its id, which is what the id is to be. It takes no
/// memory.
pub fn deal_digest(deal: &Deal) -> Digest
    requires { IsWellSized deal.now }
    ensures value { result ≡ deal_id deal.now }
    ensures any_id { (id : List ℕ) → deal_id (record deal.now { id = id }) ≡ result }
{
    let mut hasher = Sha256::new();
    hasher.update([6u8]);
    feed_head(&mut hasher, deal);
    feed_arcs(&mut hasher, deal);
    feed_leaders(&mut hasher, deal);
    feed_times(&mut hasher, deal);
    feed_digests(&mut hasher, deal.hashlocks.as_slice());
    feed_keys(&mut hasher, deal);
    hasher.finalize()
}
