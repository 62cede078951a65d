// Classes and blocks: the class of a size, the size of a class, the class and the block size of an offset's pool, and
// the starts of a pool's blocks.
ghost use Rattle.std.specs.Prelude.{◌≡◌, true, ◌/◌, ◌^◌, ◌<◌, ◌≤◌, length};
ghost use Rattle.rules.specs.Books.{alignment_of, pool_word};
ghost use Rattle.rules.specs.Blocks.{class_of, size_of, last_class, class_at, size_at, is_start, block_no};

use crate::words;

// The largest size, and so the size of the blocks of the last class, in both editions.
pub const LARGEST: usize = 512;

// The class of a size. Only a class and its size know the edition: the rest goes by a block's size.
pub fn class_of(edition: usize, n: usize) -> usize
    requires { (edition ≤ 1) × (1 ≤ n) × (n ≤ 512) }
    ensures { (result ≡ class_of (alignment_of edition) n)
        × (result ≤ last_class (alignment_of edition)) × (result ≤ 63) }
{
    (n - 1) / 8 >> edition
}

// The block size of a size's class: n bytes in eights, an even number of them at sixteen. An ask takes it from here and
// not from the class, because that is three instructions where `size_of` is six.
pub fn size_for(edition: usize, n: usize) -> usize
    requires { (edition ≤ 1) × (1 ≤ n) × (n ≤ 512) }
    ensures { (result ≡ size_of (alignment_of edition) (class_of (alignment_of edition) n))
        × (8 ≤ result) × (result ≤ 512) }
{
    8 * (((n - 1) / 8 | edition) + 1)
}

// The block size of a class, or of a number in a class's place: that is above the largest exactly if it is no class.
// It is a choice and no shift, because LLVM then knows that it is at least 8.
pub fn size_of(edition: usize, class: usize) -> usize
    requires { class < 2 ^ 32 }
    ensures { (result ≡ size_of (alignment_of edition) class) × (8 ≤ result)
        × (class ≤ last_class (alignment_of edition) → result ≤ 512) }
{
    if edition == words::EIGHT {
        return 8 * (class + 1);
    }
    16 * (class + 1)
}

// The class of the pool that an offset lies in.
fn class_at(books: &[u32], arenas: usize, offset: usize) -> usize
    requires { pool_word arenas 8 (offset / 4096) ≤ length books.now }
    ensures { (result ≡ class_at arenas books.now offset) × (result < 2 ^ 32) }
{
    let at = words::RECORDS + 8 * arenas + 8 * (offset / 4096);
    books[at + words::CLASS] as usize
}

// The block size of the pool that an offset lies in: above the largest exactly if the pool has no class.
pub fn size_at(books: &[u32], arenas: usize, edition: usize, offset: usize) -> usize
    requires { pool_word arenas 8 (offset / 4096) ≤ length books.now }
    ensures { (result ≡ size_at (alignment_of edition) arenas books.now offset) × (8 ≤ result)
        × (class_at arenas books.now offset ≤ last_class (alignment_of edition) → result ≤ 512) }
{
    size_of(edition, class_at(books, arenas, offset))
}

// A block of this size starts at o in its pool. The range comes first, so that what is divided is small; a 32-bit
// division is the quicker one.
pub fn is_start(size: usize, o: usize) -> bool
    requires { (8 ≤ size) × (size ≤ 512) }
    ensures { result ≡ is_start size o }
{
    let last = 4096 - size;
    if o < 48 {
        return false;
    }
    if last < o {
        return false;
    }
    (o - 48) as u32 % size as u32 == 0
}

// Which block starts at o.
pub fn block_no(size: usize, o: usize) -> usize
    requires { (8 ≤ size) × (size ≤ 512) × (is_start size o ≡ true) }
    ensures { (result ≡ block_no size o) × (result < 506) }
{
    ((o - 48) as u32 / size as u32) as usize
}
