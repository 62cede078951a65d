// The rules of the audit (02, W-201), from the second on: what each asks of one arena and of one pool, and that each
// arena and each pool keeps it.
ghost use Rattle.std.specs.Prelude.{◌≡◌, not, ◌&&◌, ◌*◌, ◌<◌, length};
ghost use Rattle.rules.specs.Say.{all_below};
ghost use Rattle.rules.specs.Books.{memory_length, usable_head, unused_head, arena_next, arena, none?, carved};
ghost use Rattle.rules.specs.Audit.{
  in_use,
  arena_keeps2,
  pool_keeps2,
  rule2,
  arena_keeps3,
  rule3,
  not_in_use,
  arena_keeps4,
  rule4,
  pool_keeps5,
  rule5,
  usable_member,
  unused_member,
  arena_list,
  pool_keeps6,
  arena_keeps6,
  rule6,
  pool_keeps7,
  rule7,
  pool_keeps8,
  rule8,
  arena_keeps9,
  rule9,
};
ghost use Rattle.audit.specs.Survey.{alignment_in};

use crate::blocks::{Blocks, bits_below, else_zero};
use crate::lists::Records;
use crate::survey::{ALONE, AWAY, HEADS, Survey, blocks_of, find_arena_homes, tally};
use books::blocks::{LARGEST, size_of};
use books::lists::pool_links;
use books::pool::load_pool;
use books::words::{
    ARENA_LINKS, ARENA_NEXT, ARENA_PREVIOUS, ARENA_SPARE, CARVE_MARK, CLASS, CLASS_HEADS, COUNT,
    EDITION, FREE_POOLS, FREED_HEAD, NEXT, NO_CLASS, OPEN, PREVIOUS, RECORDS, SPARE, UNUSED_HEAD,
    USABLE_HEAD, arena_word, index, pool_word, word, word_or_none,
};

// Every head of a class list, in edition sixteen too, where the last 32 have no members.
const CLASSES: usize = 64;

const MOST_ARENAS: usize = 16;

// What the survey found.
impl Survey<'_> {
    // Pool n is carved.
    fn is_carved(&self, n: usize) -> bool
        requires { n < self.now.heap.shape.arenas * self.now.heap.shape.pools }
        ensures { result ≡ carved self.now.heap.shape.pools self.now.heap.books.now n }
    {
        usize::from(self.homes[n]) != AWAY
    }

    // Pool n is in use.
    fn in_use(&self, n: usize) -> bool
        requires { n < self.now.heap.shape.arenas * self.now.heap.shape.pools }
        ensures { result ≡ in_use self.now.heap.shape.pools self.now.heap.books.now self.now.heap.map.now n }
    {
        self.is_carved(n) & (0 < self.counts[n])
    }

    // How many pools of arena a are not in use.
    fn not_in_use(&self, a: usize) -> usize
        requires { a < self.now.heap.shape.arenas }
        ensures { result ≡ not_in_use self.now.heap.shape.pools self.now.heap.books.now self.now.heap.map.now a }
    {
        let first = a * self.heap.shape.pools;
        (0..self.heap.shape.pools)
            .filter(|i| !self.in_use(first + *i))
            .count()
    }
}

// What each rule asks of an arena.
impl Survey<'_> {
    fn arena_keeps_2(&self, a: usize) -> bool
        requires { a < self.now.heap.shape.arenas }
        ensures { result ≡ arena_keeps2 self.now.heap.books.now a }
    {
        let books = self.heap.books;
        (arena_word(books, OPEN, a) <= 1)
            & (arena_word(books, ARENA_SPARE, a) == 0)
            & (arena_word(books, ARENA_SPARE + 1, a) == 0)
    }

    fn arena_keeps_3(&self, a: usize) -> bool
        requires { a < self.now.heap.shape.arenas }
        ensures { result ≡ arena_keeps3 self.now.heap.books.now a }
    {
        let books = self.heap.books;
        (arena_word(books, OPEN, a) != 0)
            | ((arena_word(books, CARVE_MARK, a) == 0)
                & (arena_word(books, FREE_POOLS, a) == 0)
                & (arena_word(books, FREED_HEAD, a) == 0))
    }

    fn arena_keeps_4(&self, a: usize) -> bool
        requires { a < self.now.heap.shape.arenas }
        ensures { result ≡ arena_keeps4 self.now.heap.shape.pools self.now.heap.books.now self.now.heap.map.now a }
    {
        let books = self.heap.books;
        let mark = arena_word(books, CARVE_MARK, a);
        (arena_word(books, OPEN, a) != 1)
            | ((1 <= mark)
                & (mark <= self.heap.shape.pools)
                & (arena_word(books, FREE_POOLS, a) == self.not_in_use(a)))
    }

    fn arena_keeps_6(&self, a: usize) -> bool
        requires { a < self.now.heap.shape.arenas }
        ensures { result ≡ arena_keeps6 self.now.heap.books.now a }
    {
        let books = self.heap.books;
        !((arena_word(books, OPEN, a) == 1) & (arena_word(books, FREE_POOLS, a) == 0))
            | ((arena_word(books, ARENA_NEXT, a) == 0)
                & (arena_word(books, ARENA_PREVIOUS, a) == 0))
    }

    // Arena a is usable, and another one is to follow it.
    fn is_followed(&self, a: usize) -> bool
        requires { a < self.now.heap.shape.arenas }
        ensures { result ≡ (usable_member self.now.heap.books.now a
            && not (none? (arena self.now.heap.books.now arena_next a))) }
    {
        let books = self.heap.books;
        (arena_word(books, OPEN, a) == 1)
            & (0 < arena_word(books, FREE_POOLS, a))
            & (arena_word(books, ARENA_NEXT, a) != 0)
    }

    // The next link can lead anywhere where rule 6 is broken, so that its word may lie past the end.
    fn arena_keeps_9(&self, a: usize) -> bool
        requires { a < self.now.heap.shape.arenas }
        ensures { result ≡ arena_keeps9 self.now.heap.books.now a }
    {
        if !self.is_followed(a) {
            return true;
        }
        let books = self.heap.books;
        let next = arena_word(books, ARENA_NEXT, a) - 1;
        arena_word(books, FREE_POOLS, a) <= word_or_none(books, RECORDS + 8 * next + FREE_POOLS)
    }
}

// What each rule asks of a pool.
impl Survey<'_> {
    fn pool_keeps_5(&self, n: usize) -> bool
        requires { n < self.now.heap.shape.arenas * self.now.heap.shape.pools }
        ensures { result ≡ pool_keeps5 (alignment_in self.now.heap) self.now.heap.shape.arenas
            self.now.heap.shape.pools self.now.heap.books.now self.now.heap.map.now n }
    {
        if self.counts[n] == 0 {
            return true;
        }
        if !self.is_carved(n) {
            return false;
        }
        let s = self.heap.shape;
        let class = pool_word(self.heap.books, s.arenas, CLASS, n);
        bits_below(self.heap.map, n, blocks_of(s.edition, class))
    }

    fn pool_keeps_6(&self, n: usize) -> bool
        requires { n < self.now.heap.shape.arenas * self.now.heap.shape.pools }
        ensures { result ≡ pool_keeps6 (alignment_in self.now.heap) self.now.heap.shape.arenas
            self.now.heap.shape.pools self.now.heap.books.now self.now.heap.map.now n }
    {
        let books = self.heap.books;
        let arenas = self.heap.shape.arenas;
        (usize::from(self.homes[n]) != ALONE)
            | ((pool_word(books, arenas, NEXT, n) == 0)
                & (pool_word(books, arenas, PREVIOUS, n) == 0))
    }

    fn pool_keeps_7(&self, n: usize) -> bool
        requires { n < self.now.heap.shape.arenas * self.now.heap.shape.pools }
        ensures { result ≡ pool_keeps7 self.now.heap.shape.arenas self.now.heap.books.now self.now.heap.map.now n }
    {
        pool_word(self.heap.books, self.heap.shape.arenas, COUNT, n) == usize::from(self.counts[n])
    }

    fn pool_keeps_8(&self, n: usize) -> bool
        requires { (n < self.now.heap.shape.arenas * self.now.heap.shape.pools)
            × (length self.now.heap.memory.now ≡ memory_length self.now.heap.shape.arenas self.now.heap.shape.pools) }
        ensures { result ≡ pool_keeps8 (alignment_in self.now.heap) self.now.heap.shape.arenas
            self.now.heap.shape.pools self.now.heap.memory.now self.now.heap.books.now self.now.heap.map.now n }
    {
        if !self.is_carved(n) {
            return true;
        }
        let s = self.heap.shape;
        let pool = load_pool(self.heap.books, s.arenas, n);
        let live = usize::from(self.counts[n]);
        if (live == 0) & (pool.class == NO_CLASS) {
            return else_zero(pool);
        }
        let size = size_of(s.edition, index(pool.class));
        if LARGEST < size {
            return false;
        }
        let blocks = Blocks {
            memory: self.heap.memory,
            map: self.heap.map,
            pool: n,
            size,
        };
        blocks.are_divided(pool, live)
    }
}

// The rules: each asks every arena or every pool, and some ask more. Where little is asked of a pool, a `fold` goes on
// past one that does not keep the rule: of a heap that keeps it, that is a test fewer for each pool.
impl Survey<'_> {
    // Each arena is open or closed, and the spare words of its record are 0.
    pub fn arenas_keep_2(&self) -> bool
        ensures { result ≡ all_below (arena_keeps2 self.now.heap.books.now) self.now.heap.shape.arenas }
    {
        (0..self.heap.shape.arenas).all(|a| self.arena_keeps_2(a))
    }

    // The spare word of each pool's record is 0.
    pub fn pools_keep_2(&self) -> bool
        ensures { result ≡ all_below (pool_keeps2 self.now.heap.shape.arenas self.now.heap.books.now)
            (self.now.heap.shape.arenas * self.now.heap.shape.pools) }
    {
        let books = self.heap.books;
        let s = self.heap.shape;
        (0..s.arenas * s.pools).fold(
            true,
            |kept, n| (pool_word(books, s.arenas, SPARE, n) == 0) & kept,
        )
    }

    // Besides, the spare words of the books are 0.
    pub fn rule_2(&self) -> bool
        ensures { result ≡ rule2 self.now.heap.shape.arenas self.now.heap.shape.pools self.now.heap.books.now }
    {
        let books = self.heap.books;
        ((word(books, EDITION + 1) == 0)
            & (word(books, EDITION + 2) == 0)
            & (word(books, EDITION + 3) == 0))
            & self.arenas_keep_2()
            & self.pools_keep_2()
    }

    // A closed arena's record is 0 but for its links.
    pub fn rule_3(&self) -> bool
        ensures { result ≡ rule3 self.now.heap.shape.arenas self.now.heap.books.now }
    {
        (0..self.heap.shape.arenas).all(|a| self.arena_keeps_3(a))
    }

    // An open arena's carve mark is a number of pools, and its free pools are those not in use.
    pub fn rule_4(&self) -> bool
        ensures { result ≡ rule4 self.now.heap.shape.arenas self.now.heap.shape.pools self.now.heap.books.now
            self.now.heap.map.now }
    {
        (0..self.heap.shape.arenas).all(|a| self.arena_keeps_4(a))
    }

    // No bit is set in a pool that is not carved, or where the pool's class has no block.
    pub fn rule_5(&self) -> bool
        ensures { result ≡ rule5 (alignment_in self.now.heap) self.now.heap.shape.arenas self.now.heap.shape.pools
            self.now.heap.books.now self.now.heap.map.now }
    {
        (0..self.counts.len()).all(|n| self.pool_keeps_5(n))
    }

    // The two lists of arenas hold just their members, once.
    fn arena_lists(&self) -> bool
        ensures { result ≡ (arena_list self.now.heap.shape.arenas self.now.heap.books.now
            (usable_member self.now.heap.books.now) usable_head
            && arena_list self.now.heap.shape.arenas self.now.heap.books.now
            (unused_member self.now.heap.books.now) unused_head) }
    {
        let mut homes: [u8; MOST_ARENAS] = [0; MOST_ARENAS];
        let homes = &mut homes[..self.heap.shape.arenas];
        find_arena_homes(self.heap.books, homes);
        let mut tallies: [u16; HEADS] = [0; HEADS];
        tally(homes, &mut tallies);
        let arenas = Records {
            books: self.heap.books,
            base: ARENA_LINKS,
            homes,
            tallies: &tallies,
        };
        arenas.holds(USABLE_HEAD, true) & arenas.holds(UNUSED_HEAD, true)
    }

    // A pool that is to be on no list, though it is in use, has no links.
    pub fn pools_keep_6(&self) -> bool
        ensures { result ≡ all_below (pool_keeps6 (alignment_in self.now.heap) self.now.heap.shape.arenas
            self.now.heap.shape.pools self.now.heap.books.now self.now.heap.map.now)
            (self.now.heap.shape.arenas * self.now.heap.shape.pools) }
    {
        (0..self.counts.len()).fold(true, |kept, n| self.pool_keeps_6(n) & kept)
    }

    // Nor has an open arena without free pools.
    pub fn arenas_keep_6(&self) -> bool
        ensures { result ≡ all_below (arena_keeps6 self.now.heap.books.now) self.now.heap.shape.arenas }
    {
        (0..self.heap.shape.arenas).all(|a| self.arena_keeps_6(a))
    }

    // Each list holds just its members, once, and what is on none has no links.
    pub fn rule_6(&self) -> bool
        ensures { result ≡ rule6 (alignment_in self.now.heap) self.now.heap.shape.arenas self.now.heap.shape.pools
            self.now.heap.books.now self.now.heap.map.now }
    {
        let arenas = self.heap.shape.arenas;
        let mut tallies: [u16; HEADS] = [0; HEADS];
        tally(self.homes, &mut tallies);
        let pools = Records {
            books: self.heap.books,
            base: pool_links(arenas),
            homes: self.homes,
            tallies: &tallies,
        };
        (0..arenas).all(|a| pools.holds(RECORDS + 8 * a + FREED_HEAD, false))
            & self.arena_lists()
            & (0..CLASSES).all(|c| pools.holds(CLASS_HEADS + c, true))
            & self.pools_keep_6()
            & self.arenas_keep_6()
    }

    // A pool's count is that of its set bits.
    pub fn rule_7(&self) -> bool
        ensures { result ≡ rule7 self.now.heap.shape.arenas self.now.heap.shape.pools self.now.heap.books.now
            self.now.heap.map.now }
    {
        (0..self.counts.len()).fold(true, |kept, n| self.pool_keeps_7(n) & kept)
    }

    // Each block of a carved pool is live, on the pool's chain or virgin.
    pub fn rule_8(&self) -> bool
        requires { length self.now.heap.memory.now
            ≡ memory_length self.now.heap.shape.arenas self.now.heap.shape.pools }
        ensures { result ≡ rule8 (alignment_in self.now.heap) self.now.heap.shape.arenas self.now.heap.shape.pools
            self.now.heap.memory.now self.now.heap.books.now self.now.heap.map.now }
    {
        (0..self.counts.len()).all(|n| self.pool_keeps_8(n))
    }

    // Usable arenas stand by rising free pools.
    pub fn rule_9(&self) -> bool
        ensures { result ≡ rule9 self.now.heap.shape.arenas self.now.heap.books.now }
    {
        (0..self.heap.shape.arenas).all(|a| self.arena_keeps_9(a))
    }
}
