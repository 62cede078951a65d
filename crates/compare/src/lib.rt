// 02's comparison of two heaps (W-212), over the lent buffers of both, which it reads alone: the list of the offsets
// that differ, and the change in live blocks of each class.
// It requires nothing of its caller, and its promise (`Promises` in crate rules) is one equation: the number, how many
// offsets differ, and every word of list and changes is what the rules say.
#![tactic(auto)]

mod blocks;
mod bytes;
mod changes;
mod next;
mod pair;
mod walk;

ghost use Rattle.std.specs.Prelude.{◌≡◌, ◌*◌, leb, length};
ghost use Rattle.rules.specs.Say.{listing};
ghost use Rattle.rules.specs.Outcome.{heap_of};
ghost use Rattle.rules.specs.Promises.{ComparePromise};
ghost use Rattle.books.specs.Refusals.{compared_in};
ghost use Rattle.compare.specs.Pools.{pools_in, kind_in};

use crate::changes::{classes, put_all};
use crate::pair::Pair;
use crate::walk::walk_pools;
use books::refusal::Refusal;
use loops::MOST_WORDS;

// The entries fit into so many words. Nothing is counted where there is room for every offset that could differ; where
// it is, a list without room takes none of the entries.
fn has_room(heaps: &Pair, room: usize) -> bool
    ensures { result ≡ leb (length (listing (kind_in heaps.now) 0 (pools_in heaps.now * 4096))) room }
{
    if MOST_WORDS * heaps.pools() <= room {
        return true;
    }
    walk_pools(heaps, &mut []) <= room
}

// Compare: each offset that differs goes to the front of the list, with its kind, and the change of each class to the
// front of the changes; the answer counts the entries. Nothing is written before the room of both is known to be
// enough. What is the second heap's ends in 2.
pub fn compare(
    memory: &[u8],
    books: &[u32],
    map: &[u64],
    memory2: &[u8],
    books2: &[u32],
    map2: &[u64],
    list: &mut [u32],
    changes: &mut [i32],
) -> Result<u32, Refusal>
    ensures { ComparePromise (heap_of memory.now books.now map.now)
        (heap_of memory.now books.now map.now)
        (heap_of memory2.now books2.now map2.now)
        (heap_of memory2.now books2.now map2.now)
        list.old list.new changes.old changes.new (compared_in result) }
{
    let heaps = Pair::test(memory, books, map, memory2, books2, map2)?;
    if !has_room(&heaps, list.len()) {
        return Err(Refusal::DoesNotFit);
    }
    if changes.len() < classes(heaps.first.shape.edition) {
        return Err(Refusal::DoesNotFit);
    }
    let words = walk_pools(&heaps, list);
    put_all(&heaps, changes);
    Ok((words / 2) as u32)
}
