// A pool's blocks (02, W-201, rules 5 and 8): where its set bits end, and that each block is live, on the freed chain
// or virgin.
ghost use Rattle.std.specs.Prelude.{◌≡◌, ◌||◌, ◌*◌, ◌+◌, ◌<◌, ◌≤◌, eqb, length};
ghost use Rattle.rules.specs.Books.{is_set};
ghost use Rattle.rules.specs.Blocks.{start_of, is_start, capacity};
ghost use Rattle.rules.specs.Audit.{set_bits, bits_below, is_dead, chained};
ghost use Rattle.books.specs.Sizes.{least_by};
ghost use Rattle.audit.specs.Divided.{else_zero, divided};

use books::blocks::{block_no, is_start};
use books::links::link_at;
use books::pool::Pool;
use books::words::index;

// Each set bit of pool n is of a block below block v.
pub fn bits_below(map: &[u64], n: usize, v: usize) -> bool
    requires { (8 * n + 8 ≤ length map.now) × (v < 512) }
    ensures { result ≡ bits_below map.now n v }
{
    let first = v / 64;
    (map[8 * n + first] >> (v % 64) == 0) & (first + 1..8).all(|i| map[8 * n + i] == 0)
}

// The record of a pool that has no class, and no set bit, is 0 but for its class and next.
pub fn else_zero(pool: Pool) -> bool
    ensures { result ≡ else_zero pool }
{
    (pool.count == 0)
        & (pool.freeblock == 0)
        & (pool.previous == 0)
        & (pool.nextoffset == 0)
        & (pool.maxnextoffset == 0)
        & (pool.spare == 0)
}

// The blocks of a pool, of one size.
#[derive(Clone, Copy)]
pub struct Blocks<'a> {
    pub memory: &'a [u8],
    pub map: &'a [u64],
    pub pool: usize,
    pub size: usize,
    ghost fits: { (8 ≤ size) × (size ≤ 512) × (8 * pool + 8 ≤ length map.now)
        × (4096 * pool + 4096 ≤ length memory.now) },
}

impl Blocks<'_> {
    // The link l leads to a block of this size, below block v, that is not live.
    fn is_dead(&self, v: usize, l: usize) -> bool
        ensures { result ≡ is_dead self.now.size (is_set self.now.map.now self.now.pool) v l }
    {
        if !is_start(self.size, l) {
            return false;
        }
        let k = block_no(self.size, l);
        (k < v) & !bits::is_set(self.map, self.pool, k)
    }

    // From the link `first` on so many dead blocks are met, and then the chain ends.
    fn chained(&self, v: usize, count: usize, first: usize) -> bool
        ensures { result ≡ chained self.now.size self.now.pool self.now.memory.now
            (is_set self.now.map.now self.now.pool) v count first }
    {
        let mut l = first;
        for _ in 0..count {
            if !self.is_dead(v, l) {
                return false;
            }
            l = index(link_at(self.memory, 4096 * self.pool + l));
        }
        l == 0
    }

    // How many blocks are to be on the chain at least, where so many are live.
    fn least_on_chain(&self, live: usize) -> usize
        ensures { result ≡ least_by live (capacity self.now.size) }
    {
        if live == 0 {
            return 2;
        }
        if live < 4048 / self.size {
            return 1;
        }
        0
    }

    // A block starts at o in its pool, or the last one ends there.
    fn is_next(&self, o: usize) -> bool
        ensures { result ≡ (is_start self.now.size o || eqb o (start_of self.now.size (capacity self.now.size))) }
    {
        is_start(self.size, o) | (o == 48 + 4048 / self.size * self.size)
    }

    // Each block is live, on the chain or virgin, by the pool's record and the number of its live blocks.
    pub fn are_divided(&self, pool: Pool, live: usize) -> bool
        requires { live ≡ set_bits self.now.map.now self.now.pool }
        ensures { result ≡ divided self.now.memory.now self.now.map.now self.now.pool pool self.now.size live }
    {
        let next = index(pool.nextoffset);
        if !((index(pool.maxnextoffset) == 4096 - self.size) & self.is_next(next)) {
            return false;
        }
        let v = (next - 48) / self.size;
        if !bits_below(self.map, self.pool, v) {
            return false;
        }
        let count = v - live;
        self.chained(v, count, index(pool.freeblock)) & (self.least_on_chain(live) <= count)
    }
}
