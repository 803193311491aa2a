//! Journals on disks that were written by hand.

ghost use Rattle.std.specs.Prelude.{◌≤◌, ◌<◌, ◌+◌, length};
ghost use Rattle.swap_digraph.specs.Deal.{IsWellSized};

use crate::tests::rows::{answers, numbers, parted, word_number};
use crate::tests::shown::{paths_told, refusal};
use std::alloc::{AllocError, Global};
use std::test::Fail;
use swap_digraph::Deal;
use wallet_journal::{Disk, Journal, MemoryDisk};

/// Writes bytes at a place of the disk.
fn put(disk: &mut MemoryDisk, at: u32, bytes: &[u8])
    requires range { at + length bytes.now ≤ 549426 }
    requires few { length bytes.now ≤ 68673 }
{
    if disk.ready().is_ok() {
        let _ = disk.write_at(at, bytes);
    }
}

/// Writes the mark of a journal, an id of equal bytes, and the party.
fn put_head(disk: &mut MemoryDisk, head: &str) {
    let (mark, rest) = parted(head, " ");
    let (id, party) = parted(rest, " ");
    put(disk, 0, &[word_number(mark)]);
    put(disk, 1, &[word_number(id); 32]);
    put(disk, 33, &[word_number(party)]);
}

/// Writes a lock's gate, and the number of vertices and the vertices of its body, which are 0 where
/// none are given.
fn put_body(disk: &mut MemoryDisk, lock: u32, body: &[u8])
    requires { lock < 8 }
{
    if let [gate, count, path @ ..] = body {
        put(disk, 34 + lock, &[*gate]);
        put(disk, 42 + 68_673 * lock, &[*count]);
        if path.len() <= 32 {
            put(disk, 75 + 68_673 * lock, path);
        }
    }
}

fn put_lock(alloc: Global, disk: &mut MemoryDisk, lock: u32, words: &str)
    requires { lock < 8 }
{
    if let Ok(body) = numbers(alloc, words) {
        put_body(disk, lock, &body);
    }
}

/// A disk with a head, and what is written for the locks 0 and 1, if anything.
fn make_disk(alloc: Global, asked: &str) -> MemoryDisk {
    let (head, bodies) = parted(asked, "; ");
    let (first, second) = parted(bodies, "; ");
    let mut disk = MemoryDisk::new(alloc, Vec::new(alloc));
    put_head(&mut disk, head);
    put_lock(alloc, &mut disk, 0, first);
    put_lock(alloc, &mut disk, 1, second);
    disk
}

/// What the journal of party 1 shows that is opened on a disk, or why it isn't opened.
pub(crate) fn disk_told(alloc: Global, deal: &Deal, asked: &str) -> Result<String, AllocError>
    requires { IsWellSized deal.now }
{
    match Journal::open(alloc, make_disk(alloc, asked), deal, 1) {
        Ok(journal) => paths_told(alloc, &journal),
        Err(fault) => String::from_str(alloc, refusal(fault.why)),
    }
}

/// The mark, the bytes of the id and the party; then for a lock each its gate, the number of its
/// vertices, and the vertices: what is shown for the locks 0 and 1.
const DISKS: &str = "\
0 0 0 => None None
0 9 9; 1 1 2; 1 1 0 => None None
2 7 1; 1 1 0 => None None
1 7 1 => None None
1 7 1; 1 2 1 0; 0 1 0 => Some([1, 0]) None
1 7 1; 0 1 1; 1 1 1 => None Some([1])
1 7 1; 1 0; 1 24 => Some([]) Some([0, 0, 0, 0, 0, 0, 0, 0, 0, 0, 0, 0, 0, 0, 0, 0, 0, 0, 0, 0, 0, 0, 0, 0])
1 7 1; 2 1 0; 255 1 1 => None None
1 7 1; 0 255; 0 1 2 => None None
1 0 1 => Foreign
1 7 0 => Foreign
1 0 1; 1 255 => Foreign
1 7 1; 1 25 => Damaged 0
1 7 1; 1 1 2; 1 255 => Damaged 0
1 7 1; 1 2 1 0; 1 2 1 2 => Damaged 1
1 7 1; 0 255; 1 25 => Damaged 1";

#[test]
fn disks_by_hand(rt: HostRuntime) -> Result<(), Fail> {
    answers(rt.alloc(), "disks", DISKS)
}
