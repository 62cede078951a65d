// The loops of format, write, resize and roll call. Those over pools take books, map and the shape, and no `Reader`,
// which would ask for memory too.
#![tactic(auto)]

ghost use Rattle.std.specs.Prelude.{◌≡◌, ◌+◌, ◌*◌, ◌≤◌, ◌<◌, IfSome, leb, length, take, drop};
ghost use Rattle.std.specs.Option.{unwrap_or};
ghost use Rattle.std.proofs.lemmas.List.Edits.{sets};
ghost use Rattle.rules.specs.Books.{alignment_of, books_length};
ghost use Rattle.rules.specs.Format.{fresh_arenas, fresh_pools, fresh_books};
ghost use Rattle.rules.specs.Blocks.{capacity};
ghost use Rattle.rules.specs.View.{roll_blocks, roll_pool, roll_pools};
ghost use Rattle.loops.specs.Left.{Stored};
ghost use Rattle.loops.specs.Fresh.{next_of};
ghost use Rattle.loops.specs.Word.{in_word, up_to, roll_word};
ghost use Rattle.loops.specs.Roll.{Stands, Pools, pool_size};
ghost use Rattle.loops.specs.Copy.{Apart};

use books::blocks::{LARGEST, size_at};
use books::words::{EDITION, NO_CLASS, RECORDS, Shape, UNUSED_HEAD};

// The elements of the one list are stored in the other, from place `at` on: words in the books, a text in memory. It is
// a loop, because `copy_from_slice` calls `memmove`, and of the C library the archive needs `memset` alone.
pub fn store<T: Copy>(to: &mut [T], at: usize, from: &[T])
    requires { at + length from.now ≤ length to.old }
    ensures { to.new ≡ sets to.old at from.now }
{
    for (i, element) in from.iter().enumerate() {
        to[at + i] = *element;
    }
}

// The n bytes from `from` on are stored from `to` on; the two runs do not meet. It is a loop, because the library's
// `copy_within` asks how they might, and has a loop for either way: twice the code, and some 8 instructions more.
pub fn copy_within(memory: &mut [u8], from: usize, to: usize, n: usize)
    requires { (from + n ≤ length memory.old) × (to + n ≤ length memory.old) × Apart from to n }
    ensures { memory.new ≡ sets memory.old to (take n (drop from memory.old)) }
{
    for i in 0..n {
        memory[to + i] = memory[from + i];
    }
}

// ---- format

// The link from arena i to the next, where k arenas come after it: the word of the books, 0 for none.
fn next_of(i: usize, k: usize) -> u32
    requires { i < 16 }
    ensures { result ≡ next_of i k }
{
    if k == 0 {
        return 0;
    }
    (i + 2) as u32
}

// The arena records: closed, and on the unused list in rising order.
fn fresh_arenas(books: &mut [u32], arenas: usize)
    requires { (arenas ≤ 16) × (72 + 8 * arenas ≤ length books.old) }
    ensures { books.new ≡ sets books.old 72 (fresh_arenas 0 arenas) }
{
    for i in 0..arenas {
        let next = next_of(i, arenas - (i + 1));
        store(books, RECORDS + 8 * i, &[0, 0, 0, 0, next, i as u32, 0, 0]);
    }
}

// The records of n pools that have no class, from word `at` on.
fn fresh_pools(books: &mut [u32], at: usize, n: usize)
    requires { at + 8 * n ≤ length books.old }
    ensures { books.new ≡ sets books.old at (fresh_pools n) }
{
    let fresh = [0, 0, 0, 0, NO_CLASS, 0, 0, 0];
    for i in 0..n {
        store(books, at + 8 * i, &fresh);
    }
}

// The books of a fresh heap: the numbers, heads and edition, the arena records, the pool records.
pub fn fresh_books(books: &mut [u32], shape: Shape)
    requires { (shape.arenas ≤ 16) × (shape.pools ≤ 64) × (shape.edition ≤ 1)
        × (length books.old ≡ books_length shape.arenas shape.pools) }
    ensures { books.new ≡ fresh_books shape.arenas shape.pools shape.edition }
{
    let mut heads: [u32; RECORDS] = [0; RECORDS];
    heads[0] = shape.arenas as u32;
    heads[1] = shape.pools as u32;
    heads[UNUSED_HEAD] = 1;
    heads[EDITION] = shape.edition as u32;
    store(books, 0, &heads);
    fresh_arenas(books, shape.arenas);
    fresh_pools(
        books,
        RECORDS + 8 * shape.arenas,
        shape.arenas * shape.pools,
    );
}

// ---- roll call

// Two roll words for each of the most blocks that a pool can hold, 506 of 8 bytes. At sixteen 253 are the most; there
// too the words that the header's macro says are so many.
pub const MOST_WORDS: usize = 1012;

// How many of a pool's blocks have their bits in word i of its map.
fn in_word(blocks: usize, i: usize) -> usize
    requires { 64 * i < blocks }
    ensures { result ≡ in_word blocks i }
{
    (blocks - 64 * i).min(64)
}

// How many roll words the live blocks of the pool take, where its blocks have the size.
fn count_blocks(map: &[u64], pool: usize, size: usize) -> usize
    requires { (8 * pool + 8 ≤ length map.now) × (8 ≤ size) }
    ensures { result ≡ length (roll_blocks map.now pool size 0 (capacity size)) }
{
    let blocks = 4048 / size;
    let live: usize = (0..blocks.div_ceil(64))
        .map(|i| bits::count_live(map[8 * pool + i], in_word(blocks, i)))
        .sum();
    2 * live
}

// The size of the pool's blocks, where any of its bits is set and it has a class: otherwise it has no live block.
pub fn pool_size(books: &[u32], map: &[u64], shape: Shape, pool: usize) -> Option<usize>
    requires { Stands shape.arenas pool books.now map.now }
    ensures value { unwrap_or result 0
        ≡ pool_size (alignment_of shape.edition) shape.arenas books.now map.now pool }
    ensures range { IfSome result (λ size. (8 ≤ size) × (size ≤ 512)) }
{
    if bits::none_set(map, pool) {
        return None;
    }
    let size = size_at(books, shape.arenas, shape.edition, 4096 * pool);
    if LARGEST < size {
        return None;
    }
    Some(size)
}

// How many roll words the live blocks of the pool take.
pub fn count_pool(books: &[u32], map: &[u64], shape: Shape, pool: usize) -> usize
    requires { Stands shape.arenas pool books.now map.now }
    ensures { result
        ≡ length (roll_pool (alignment_of shape.edition) shape.arenas books.now map.now pool) }
{
    match pool_size(books, map, shape, pool) {
        Some(size) => count_blocks(map, pool, size),
        None => 0,
    }
}

// How many roll words the live blocks of the n pools take.
pub fn count_words(books: &[u32], map: &[u64], shape: Shape, n: usize) -> usize
    requires { Pools shape.arenas n books.now map.now }
    ensures { result
        ≡ length (roll_pools (alignment_of shape.edition) shape.arenas books.now map.now 0 n) }
{
    (0..n).map(|pool| count_pool(books, map, shape, pool)).sum()
}

// The roll of the n pools fits into so many words. No block is counted where there is room for every block that the
// pools could hold.
pub fn has_room(books: &[u32], map: &[u64], shape: Shape, n: usize, room: usize) -> bool
    requires { Pools shape.arenas n books.now map.now }
    ensures { result
        ≡ leb (length (roll_pools (alignment_of shape.edition) shape.arenas books.now map.now 0 n)) room }
{
    MOST_WORDS * n <= room || count_words(books, map, shape, n) <= room
}

// Offset and size of each live block of a map word, whose first block is at `first`, from roll word `at` on: the place
// after them. It goes from set bit to set bit, lowest first; a bit past the block at `last` is in no roll.
fn roll_word(
    word: u64,
    first: usize,
    size: usize,
    last: usize,
    roll: &mut [u32],
    at: usize,
) -> usize
    requires { (first ≤ last) × (last < 4096 * 1024) × (8 ≤ size) × (size ≤ 512)
        × (at + length (roll_word word first size (up_to first size last)) ≤ length roll.old) }
    ensures { Stored roll.old at (roll_word word first size (up_to first size last))
        roll.new result }
{
    let mut left = word;
    let mut place = at;
    while left != 0 {
        let offset = first + u64::trailing_zeros(left) as usize * size;
        if last < offset {
            return place;
        }
        roll[place] = offset as u32;
        roll[place + 1] = size as u32;
        place += 2;
        left &= left - 1;
    }
    place
}

// Offset and size of each live block of the pool, where its blocks have the size, from roll word `at` on: the place
// after them.
fn roll_blocks(map: &[u64], pool: usize, size: usize, roll: &mut [u32], at: usize) -> usize
    requires { (8 * pool + 8 ≤ length map.now) × (pool < 1024) × (8 ≤ size) × (size ≤ 512)
        × (at + length (roll_blocks map.now pool size 0 (capacity size)) ≤ length roll.old) }
    ensures { Stored roll.old at (roll_blocks map.now pool size 0 (capacity size))
        roll.new result }
{
    let last = 4096 * pool + (4096 - size);
    let mut place = at;
    let words = &map[8 * pool..8 * pool + 8];
    for (i, word) in words.iter().enumerate() {
        let first = 4096 * pool + (48 + 64 * i * size);
        if last < first {
            return place;
        }
        place = roll_word(*word, first, size, last, roll, place);
    }
    place
}

// Offset and size of each live block of the pool, from roll word `at` on: the place after them.
fn roll_pool(
    books: &[u32],
    map: &[u64],
    shape: Shape,
    pool: usize,
    roll: &mut [u32],
    at: usize,
) -> usize
    requires { Stands shape.arenas pool books.now map.now
        × (at + length (roll_pool (alignment_of shape.edition) shape.arenas books.now map.now pool)
        ≤ length roll.old) }
    ensures { Stored roll.old at
        (roll_pool (alignment_of shape.edition) shape.arenas books.now map.now pool)
        roll.new result }
{
    match pool_size(books, map, shape, pool) {
        Some(size) => roll_blocks(map, pool, size, roll, at),
        None => at,
    }
}

// Offset and size of each live block of the n pools, at the front of the roll: how many words they take.
pub fn put_roll(books: &[u32], map: &[u64], shape: Shape, n: usize, roll: &mut [u32]) -> usize
    requires { Pools shape.arenas n books.now map.now
        × (length (roll_pools (alignment_of shape.edition) shape.arenas books.now map.now 0 n) ≤ length roll.old) }
    ensures { Stored roll.old 0
        (roll_pools (alignment_of shape.edition) shape.arenas books.now map.now 0 n)
        roll.new result }
{
    let mut place: usize = 0;
    for pool in 0..n {
        place = roll_pool(books, map, shape, pool, roll, place);
    }
    place
}
