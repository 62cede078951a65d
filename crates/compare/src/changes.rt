// The live blocks of each class in both heaps, and the signed change from the first to the second.
ghost use Rattle.std.specs.Prelude.{◌≡◌, ◌+◌, ◌*◌, ◌^◌, ◌≤◌, ◌<◌, length};
ghost use Rattle.std.proofs.lemmas.List.Edits.{sets};
ghost use Rattle.rules.specs.Books.{at, alignment_of};
ghost use Rattle.rules.specs.Blocks.{last_class};
ghost use Rattle.rules.specs.Compare.{change_from};
ghost use Rattle.books.specs.Readers.{alignment_in};
ghost use Rattle.compare.specs.Changes.{Counted, added, Most, changes_of};
ghost use Rattle.compare.specs.Pools.{changes_in};

use crate::pair::Pair;
use books::reader::Reader;
use books::words::{CLASS, EIGHT, pool_word};
use loops::count_pool;

// How many classes an edition has.
pub fn classes(edition: usize) -> usize
    ensures { (result ≡ last_class (alignment_of edition) + 1) × (result ≤ 64) }
{
    if edition == EIGHT {
        return 64;
    }
    32
}

// So many live blocks more of the class, if there are any.
fn add(counts: &mut [u32; 64], class: usize, live: usize)
    requires { (live ≡ 0 → ⊥) → (class < 64) × (at counts.old class + live < 2 ^ 32) }
    ensures { counts.new ≡ added class live counts.old }
{
    if live == 0 {
        return;
    }
    counts[class] += live as u32;
}

// The live blocks of each class are counted, pool by pool. Counts begin at 0. They are lent, since an array that is
// answered is copied by the C library's `memcpy`, and the archive needs `memset` alone.
fn tally(heap: &Reader, counts: &mut [u32; 64])
    requires { Counted (alignment_in heap.now) heap.now.shape.arenas heap.now.books.now heap.now.map.now 0 counts.old }
    ensures { Counted (alignment_in heap.now) heap.now.shape.arenas heap.now.books.now heap.now.map.now
        (heap.now.shape.arenas * heap.now.shape.pools) counts.new }
{
    let Reader {
        books,
        map,
        shape,
        ..
    } = *heap;
    for pool in 0..shape.arenas * shape.pools {
        let words = count_pool(books, map, shape, pool);
        let class = pool_word(books, shape.arenas, CLASS, pool);
        add(counts, class, words / 2);
    }
}

// The change from one count to another: 0 where they are equal, above 0 where the second is more, below 0 where the
// first is.
fn change(count: u32, count2: u32) -> i32
    requires { (count ≤ 518144) × (count2 ≤ 518144) }
    ensures { result ≡ change_from count count2 }
{
    count2 as i32 - count as i32
}

// The changes of the first n classes. By the class, which three rows are read and written at.
fn put_changes(counts: &[u32; 64], counts2: &[u32; 64], changes: &mut [i32], n: usize)
    requires { (n ≤ 64) × (n ≤ length changes.old) × Most n counts.now × Most n counts2.now }
    ensures { changes.new ≡ sets changes.old 0 (changes_of counts.now counts2.now 0 n) }
{
    for c in 0..n {
        changes[c] = change(counts[c], counts2[c]);
    }
}

// The changes of all classes, from the first heap to the second, at the front of the changes.
pub fn put_all(heaps: &Pair, changes: &mut [i32])
    requires { last_class (alignment_in heaps.now.first) + 1 ≤ length changes.old }
    ensures { changes.new ≡ sets changes.old 0 (changes_in heaps.now) }
{
    let mut counts = [0; 64];
    let mut counts2 = [0; 64];
    tally(&heaps.first, &mut counts);
    tally(&heaps.second, &mut counts2);
    put_changes(
        &counts,
        &counts2,
        changes,
        classes(heaps.first.shape.edition),
    );
}
