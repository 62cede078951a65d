// The walk through both heaps: each offset that differs, by rising offset, is noted in the list. A pool whose blocks
// have one size goes from set bit to set bit of both maps.
ghost use Rattle.std.specs.Prelude.{◌≡◌, true, false, ◌+◌, ◌*◌, ◌%◌, ◌^◌, ◌≤◌, ◌<◌, length};
ghost use Rattle.std.specs.Int.Bits.{bit_or};
ghost use Rattle.rules.specs.Say.{listing};
ghost use Rattle.rules.specs.Blocks.{capacity};
ghost use Rattle.sequences.specs.Listing.{at_steps};
ghost use Rattle.loops.specs.Word.{each_bit, up_to};
ghost use Rattle.compare.specs.Kinds.{together_at, apart_at};
ghost use Rattle.compare.specs.Noted.{Noted};
ghost use Rattle.compare.specs.Words.{said_of};
ghost use Rattle.compare.specs.Pools.{pools_in, kind_in};

use crate::blocks::{has_bit, kind_apart, kind_together, note};
use crate::next::{earlier, next_live, next_past};
use crate::pair::Pair;
use loops::pool_size;

// The blocks of a map word in both heaps, of the size, the first at `start` and none past `last`: from bit to bit that
// is set in either.
fn walk_word(
    heaps: &Pair,
    word: u64,
    word2: u64,
    start: usize,
    size: usize,
    last: usize,
    list: &mut [u32],
    at: usize,
) -> usize
    requires { (start ≤ last) × (last < 4096 * 1024) × (8 ≤ size) × (size ≤ 512) × (size % 8 ≡ 0)
        × (last + size ≤ length heaps.now.first.memory.now) × (last + size ≤ length heaps.now.second.memory.now)
        × (at + length (each_bit
        (said_of heaps.now.first.memory.now heaps.now.second.memory.now word word2 start size)
        (bit_or word word2) 0 (up_to start size last)) < 2 ^ 32) }
    ensures { Noted list.old at (each_bit
        (said_of heaps.now.first.memory.now heaps.now.second.memory.now word word2 start size)
        (bit_or word word2) 0 (up_to start size last)) list.new result }
{
    let Pair { first, second } = *heaps;
    let mut left = word | word2;
    let mut place = at;
    while left != 0 {
        let j = left.trailing_zeros() as usize;
        let offset = start + j * size;
        if last < offset {
            return place;
        }
        let kind = kind_together(
            first.memory,
            second.memory,
            has_bit(word, j),
            has_bit(word2, j),
            offset,
            size,
        );
        place = note(list, place, offset, kind);
        left &= left - 1;
    }
    place
}

// A pool whose blocks have the size in each heap that has blocks there.
fn walk_blocks(
    heaps: &Pair,
    in_first: bool,
    in_second: bool,
    pool: usize,
    size: usize,
    list: &mut [u32],
    at: usize,
) -> usize
    requires { (pool < pools_in heaps.now) × (8 ≤ size) × (size ≤ 512) × (size % 8 ≡ 0)
        × (at + length (at_steps (together_at heaps.now.first.memory.now heaps.now.second.memory.now
        heaps.now.first.map.now heaps.now.second.map.now in_first in_second pool size)
        (4096 * pool + 48) size (capacity size)) < 2 ^ 32) }
    ensures { Noted list.old at (at_steps (together_at heaps.now.first.memory.now heaps.now.second.memory.now
        heaps.now.first.map.now heaps.now.second.map.now in_first in_second pool size)
        (4096 * pool + 48) size (capacity size)) list.new result }
{
    let last = 4096 * pool + (4096 - size);
    let mut place = at;
    for i in 0..8 {
        let start = 4096 * pool + (48 + 64 * i * size);
        if last < start {
            return place;
        }
        let word = if in_first {
            heaps.first.map[8 * pool + i]
        } else {
            0
        };
        let word2 = if in_second {
            heaps.second.map[8 * pool + i]
        } else {
            0
        };
        place = walk_word(heaps, word, word2, start, size, last, list, place);
    }
    place
}

// A pool whose blocks have another size in each heap: from live block to live block of either. It is not copied into
// its caller: there LLVM would keep each pool's map words one by one, also of the many pools that have no bit set.
#[inline(never)]
fn walk_apart(
    heaps: &Pair,
    pool: usize,
    size: usize,
    size2: usize,
    list: &mut [u32],
    at: usize,
) -> usize
    requires { (pool < pools_in heaps.now) × (8 ≤ size) × (size ≤ 512) × (8 ≤ size2) × (size2 ≤ 512)
        × (at + length (listing (apart_at heaps.now.first.map.now heaps.now.second.map.now size size2 pool)
        (4096 * pool) 4096) < 2 ^ 32) }
    ensures { Noted list.old at
        (listing (apart_at heaps.now.first.map.now heaps.now.second.map.now size size2 pool) (4096 * pool) 4096)
        list.new result }
{
    let Pair { first, second } = *heaps;
    let mut place = at;
    let mut o = next_live(first.map, pool, size, 0);
    let mut o2 = next_live(second.map, pool, size2, 0);
    while let Some(next) = earlier(o, o2) {
        let kind = kind_apart(o == Some(next), o2 == Some(next));
        place = note(list, place, 4096 * pool + next, kind);
        o = next_past(first.map, pool, size, next, o);
        o2 = next_past(second.map, pool, size2, next, o2);
    }
    place
}

// The pool in both heaps. Where only one has blocks there, theirs is the size.
fn walk_pool(heaps: &Pair, pool: usize, list: &mut [u32], at: usize) -> usize
    requires { (pool < pools_in heaps.now)
        × (at + length (listing (kind_in heaps.now) (4096 * pool) 4096) < 2 ^ 32) }
    ensures { Noted list.old at (listing (kind_in heaps.now) (4096 * pool) 4096) list.new result }
{
    let Pair { first, second } = *heaps;
    let one = pool_size(first.books, first.map, first.shape, pool);
    let two = pool_size(second.books, second.map, second.shape, pool);
    match (one, two) {
        (None, None) => at,
        (Some(size), None) => walk_blocks(heaps, true, false, pool, size, list, at),
        (None, Some(size)) => walk_blocks(heaps, false, true, pool, size, list, at),
        (Some(size), Some(size2)) if size == size2 => walk_blocks(
            heaps, true, true, pool, size, list, at,
        ),
        (Some(size), Some(size2)) => walk_apart(heaps, pool, size, size2, list, at),
    }
}

// Every pool in both heaps: how many words are noted.
pub fn walk_pools(heaps: &Pair, list: &mut [u32]) -> usize
    ensures { Noted list.old 0 (listing (kind_in heaps.now) 0 (pools_in heaps.now * 4096)) list.new result }
{
    let mut place: usize = 0;
    for pool in 0..heaps.pools() {
        place = walk_pool(heaps, pool, list, place);
    }
    place
}
