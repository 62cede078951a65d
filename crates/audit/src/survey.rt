// What the audit finds out first of a heap, and keeps: how many bits of each pool are set, and the list that each pool
// and each arena is to be on, by the word of its head.
ghost use Rattle.std.specs.Prelude.{◌≡◌, ◌*◌, ◌+◌, ◌^◌, ◌<◌, ◌≤◌, eqb, length};
ghost use Rattle.rules.specs.Say.{how_many};
ghost use Rattle.rules.specs.Books.{at, alignment_of, books_length};
ghost use Rattle.rules.specs.Audit.{set_bits, blocks_of};
ghost use Rattle.audit.specs.Survey.{Filled, home_by, arena_home_of, Surveyed};

use crate::lent::Lent;
use books::blocks::{LARGEST, size_of};
use books::words::{
    CLASS, CLASS_HEADS, FREE_POOLS, FREED_HEAD, OPEN, RECORDS, Shape, UNUSED_HEAD, USABLE_HEAD,
    arena_of, arena_word, is_carved, pool_word,
};

// What is found of each pool of a heap.
#[derive(Clone, Copy)]
pub struct Survey<'a> {
    pub heap: Lent<'a>,
    pub counts: &'a [u16],
    pub homes: &'a [u8],
    ghost surveyed: { Surveyed heap counts.now homes.now },
}

// In place of a head, for words 0 and 1 are A and P and no list's: of a record that is on no list and has both links 0,
// and of one that no rule asks for. They are numbers, because the homes of 1024 pools are kept in a byte each.
pub const ALONE: usize = 0;

pub const AWAY: usize = 1;

// More than any head: the last one is arena 15's, of freed pools.
pub const HEADS: usize = 256;

// How many bits of pool n are set, at a block or at none. Most pools of a heap that is almost empty have none, and
// eight tests are a fraction of eight counts of ones.
fn set_bits(map: &[u64], n: usize) -> usize
    requires { 8 * n + 8 ≤ length map.now }
    ensures { (result ≡ set_bits map.now n) × (result ≤ 512) }
{
    if bits::none_set(map, n) {
        return 0;
    }
    let words = &map[8 * n..8 * n + 8];
    words.iter().map(|word| bits::count_live(*word, 64)).sum()
}

// The set bits of each of the pools.
pub fn count_bits(map: &[u64], counts: &mut [u16])
    requires { 8 * length counts.old ≤ length map.now }
    ensures { Filled (set_bits map.now) (length counts.new) counts.new }
{
    for (n, count) in counts.iter_mut().enumerate() {
        *count = set_bits(map, n) as u16;
    }
}

// How many blocks a pool of the class has: none, where the number is no class.
pub fn blocks_of(edition: usize, class: usize) -> usize
    requires { class < 2 ^ 32 }
    ensures { (result ≡ blocks_of (alignment_of edition) class) × (result ≤ 506) }
{
    let size = size_of(edition, class);
    if LARGEST < size {
        return 0;
    }
    4048 / size
}

// The head of the list that pool n, with so many set bits, is to be on.
fn home_of(books: &[u32], s: Shape, n: usize, live: usize) -> usize
    requires { (1 ≤ s.pools) × (s.arenas ≤ 16) × (n < s.arenas * s.pools) × (s.arenas * s.pools ≤ 1024)
        × (length books.now ≡ books_length s.arenas s.pools) }
    ensures { (result ≡ home_by (alignment_of s.edition) s.arenas s.pools books.now n live)
        × (result < 256) }
{
    if !is_carved(books, s.arenas, s.pools, n) {
        return AWAY;
    }
    if live == 0 {
        return RECORDS + 8 * arena_of(s.arenas, s.pools, n) + FREED_HEAD;
    }
    let class = pool_word(books, s.arenas, CLASS, n);
    if live < blocks_of(s.edition, class) {
        return CLASS_HEADS + class;
    }
    ALONE
}

// The heads of the pools' lists. They go by books alone, so that no whole heap is asked for, here and for the arenas.
pub fn find_homes(books: &[u32], s: Shape, counts: &[u16], homes: &mut [u8])
    requires { (1 ≤ s.pools) × (s.arenas ≤ 16) × (s.arenas * s.pools ≤ 1024)
        × (length books.now ≡ books_length s.arenas s.pools)
        × (length homes.old ≤ length counts.now) × (length homes.old ≤ s.arenas * s.pools) }
    ensures { Filled (λ n. home_by (alignment_of s.edition) s.arenas s.pools books.now n
        (at counts.now n)) (length homes.new) homes.new }
{
    for (n, home) in homes.iter_mut().enumerate() {
        *home = home_of(books, s, n, usize::from(counts[n])) as u8;
    }
}

// The head of the list that arena a is to be on.
fn arena_home_of(books: &[u32], a: usize) -> usize
    requires { (a < 16) × (80 + 8 * a ≤ length books.now) }
    ensures { (result ≡ arena_home_of books.now a) × (result < 256) }
{
    let is_open = arena_word(books, OPEN, a);
    if is_open == 0 {
        return UNUSED_HEAD;
    }
    if is_open != 1 {
        return AWAY;
    }
    if arena_word(books, FREE_POOLS, a) == 0 {
        return ALONE;
    }
    USABLE_HEAD
}

// The heads of the arenas' lists.
pub fn find_arena_homes(books: &[u32], homes: &mut [u8])
    requires { (length homes.old ≤ 16) × (72 + 8 * length homes.old ≤ length books.now) }
    ensures { Filled (arena_home_of books.now) (length homes.new) homes.new }
{
    for (a, home) in homes.iter_mut().enumerate() {
        *home = arena_home_of(books, a) as u8;
    }
}

// How many of the records are to be on the list of each head.
pub fn tally(homes: &[u8], tallies: &mut [u16])
    requires { (length homes.now ≤ 1024) × (256 ≤ length tallies.old) × Filled (λ h. 0) 256 tallies.old }
    ensures { Filled (λ h. how_many (λ y. eqb (at homes.now y) h) (length homes.now)) 256 tallies.new }
{
    for home in homes {
        tallies[usize::from(*home)] += 1;
    }
}
