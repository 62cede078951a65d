// Where the words of the books stand, and reading them: the heads, and the words of a record by their place in it.
// Records are eight words long, the arenas' first and then the pools'.
ghost use Rattle.std.specs.Prelude.{◌≡◌, ◌*◌, ◌/◌, ◌^◌, ◌<◌, ◌≤◌, length};
ghost use Rattle.rules.specs.Books.{at, arena_word, arena, pool_word, pool, carved};
ghost use Rattle.books.specs.Known.{shape_of};

// The heads of the lists, and the first record.
pub const USABLE_HEAD: usize = 2;

pub const UNUSED_HEAD: usize = 3;

pub const CLASS_HEADS: usize = 4;

// The word that says which edition the heap is of.
pub const EDITION: usize = 68;

// What it says, and what format is told: blocks of multiples of eight bytes, or of sixteen. An edition is a number and
// no enum: `shape_of` promises the word as it stands, format is told any number, and a class is shifted by it.
pub const EIGHT: usize = 0;

pub const SIXTEEN: usize = 1;

pub const RECORDS: usize = 72;

// Arena 0's next word; its previous word comes after it.
pub const ARENA_LINKS: usize = 76;

// An arena record.
pub const OPEN: usize = 0;

pub const CARVE_MARK: usize = 1;

pub const FREE_POOLS: usize = 2;

pub const FREED_HEAD: usize = 3;

pub const ARENA_NEXT: usize = 4;

pub const ARENA_PREVIOUS: usize = 5;

// The last two words of an arena record, which are 0: this one and the next.
pub const ARENA_SPARE: usize = 6;

// A pool record.
pub const COUNT: usize = 0;

pub const FREEBLOCK: usize = 1;

pub const NEXT: usize = 2;

pub const PREVIOUS: usize = 3;

pub const CLASS: usize = 4;

pub const NEXTOFFSET: usize = 5;

pub const MAXNEXTOFFSET: usize = 6;

pub const SPARE: usize = 7;

// The class of a pool that has none.
pub const NO_CLASS: u32 = 65535;

// A word of the books, a number to count with. (`usize` has no `From<u32>`.)
pub fn index(x: u32) -> usize
    ensures { (result ≡ x) × (result < 2 ^ 32) }
{
    x as usize
}

// Word i of the books.
pub fn word(books: &[u32], i: usize) -> usize
    requires { i < length books.now }
    ensures { (result ≡ at books.now i) × (result < 2 ^ 32) }
{
    index(books[i])
}

// Word i of the books, and 0 past their end.
pub fn word_or_none(books: &[u32], i: usize) -> usize
    ensures { (result ≡ at books.now i) × (result < 2 ^ 32) }
{
    if books.len() <= i {
        return 0;
    }
    word(books, i)
}

// What the books say of their heap: how many arenas, of how many pools, and the edition.
#[derive(Clone, Copy, PartialEq, Eq)]
pub struct Shape {
    pub arenas: usize,
    pub pools: usize,
    pub edition: usize,
}

pub fn shape_of(books: &[u32]) -> Shape
    requires { 68 < length books.now }
    ensures { result ≡ shape_of books.now }
{
    Shape {
        arenas: word(books, 0),
        pools: word(books, 1),
        edition: word(books, EDITION),
    }
}

// Word w of arena a's record.
pub fn arena_word(books: &[u32], w: usize, a: usize) -> usize
    requires { arena_word w a < length books.now }
    ensures { (result ≡ arena books.now w a) × (result < 2 ^ 32) }
{
    word(books, RECORDS + 8 * a + w)
}

// Word w of pool n's record, in books of so many arenas.
pub fn pool_word(books: &[u32], arenas: usize, w: usize, n: usize) -> usize
    requires { pool_word arenas w n < length books.now }
    ensures { (result ≡ pool arenas books.now w n) × (result < 2 ^ 32) }
{
    word(books, RECORDS + 8 * arenas + 8 * n + w)
}

// The arena of a pool.
pub fn arena_of(arenas: usize, pools: usize, p: usize) -> usize
    requires { (1 ≤ pools) × (p < arenas * pools) }
    ensures { (result ≡ p / pools) × (result < arenas) }
{
    p / pools
}

// Pool p is carved: it lies below its open arena's mark.
pub fn is_carved(books: &[u32], arenas: usize, pools: usize, p: usize) -> bool
    requires { (1 ≤ pools) × (p < arenas * pools) × (arenas ≤ 16) × (arena_word 0 arenas ≤ length books.now) }
    ensures { result ≡ carved pools books.now p }
{
    let a = arena_of(arenas, pools, p);
    (arena_word(books, OPEN, a) == 1) & (p % pools < arena_word(books, CARVE_MARK, a))
}
