// An arena, one of whose pools comes free: what becomes of it, decided from the books before. Where it is neither
// released nor newly usable, it walks in the list of the usable arenas.
ghost use Rattle.std.specs.Prelude.{◌≡◌, true, false, ◌+◌, ◌^◌, ◌<◌, ◌≤◌, MatchOption};
ghost use Rattle.rules.specs.Books.{free_pools, arena_next, arena};
ghost use Rattle.rules.specs.GiveBack.{passes, goes_in, walk, settling};
ghost use Rattle.steps.specs.Arenas.{ArenaIn, link_in};
ghost use Rattle.steps.specs.Backs.{may_empty};

use books::lists::{may_join, may_leave};
use books::pool::Pool;
use books::words::{
    ARENA_LINKS, ARENA_NEXT, ARENA_PREVIOUS, FREE_POOLS, FREED_HEAD, Shape, UNUSED_HEAD,
    USABLE_HEAD, arena_word,
};
use plans::path::keeps;
use rules::BackPlan;

// An arena of books that are lent to be read.
#[derive(Clone, Copy)]
pub struct Arena<'a> {
    pub books: &'a [u32],
    pub shape: Shape,
    pub number: usize,
    ghost stands: { ArenaIn shape books.now number },
}

impl<'a> Arena<'a> {
    // How many free pools the books give it.
    fn free(&self) -> usize
        ensures { (result ≡ arena self.now.books.now free_pools self.now.number) × (result < 2 ^ 32) }
    {
        arena_word(self.books, FREE_POOLS, self.number)
    }

    // The pool of this record may leave its class list and return to the arena.
    pub fn may_empty(&self, pool: Pool) -> bool
        ensures { result
            ≡ may_empty self.now.shape.arenas self.now.shape.pools self.now.number pool self.now.books.now }
    {
        let all = self.shape.arenas * self.shape.pools;
        pool.may_leave(all)
            & (arena_word(self.books, FREED_HEAD, self.number) <= all)
            & (self.free() <= self.shape.pools - 1)
    }

    // The arena that the link leads to, where it has fewer free pools than this one has now that it gets one more.
    fn passed(&self, next: usize) -> Option<usize>
        requires { next ≤ self.now.shape.arenas }
        ensures { MatchOption result
            (passes self.now.shape.arenas self.now.books.now self.now.number next ≡ false)
            (λ x. (passes self.now.shape.arenas self.now.books.now self.now.number next ≡ true) × (next ≡ x + 1)) }
    {
        let x = next.checked_sub(1)?;
        // it has as many as itself, and its word has not risen yet
        if x == self.number {
            return None;
        }
        if arena_word(self.books, FREE_POOLS, x) < self.free() + 1 {
            return Some(x);
        }
        None
    }

    // It goes in after the arena that it passed last, or stays where it passed none.
    fn goes_in(&self, last: Option<usize>) -> BackPlan
        ensures { result
            ≡ goes_in self.now.shape.arenas self.now.books.now self.now.number (link_in last) }
    {
        let Some(q) = last else {
            return BackPlan::Empties;
        };
        keeps(
            arena_word(self.books, ARENA_PREVIOUS, self.number) <= self.shape.arenas,
            BackPlan::Moves(q),
        )
    }

    // It passes the arenas that follow it as long as they have fewer free pools.
    fn walk(&self) -> BackPlan
        ensures { result ≡ walk self.now.shape.arenas self.now.books.now self.now.number self.now.shape.arenas
            (arena self.now.books.now arena_next self.now.number) 0 }
    {
        let mut next = arena_word(self.books, ARENA_NEXT, self.number);
        let mut last = None;
        for _ in 0..=self.shape.arenas {
            if self.shape.arenas < next {
                return BackPlan::Damaged;
            }
            let Some(x) = self.passed(next) else {
                return self.goes_in(last);
            };
            last = Some(x);
            next = arena_word(self.books, ARENA_NEXT, x);
        }
        BackPlan::Damaged
    }

    // What will become of it: where all its pools are free it is released, where none was it is usable again,
    // otherwise it walks.
    pub fn settling(&self) -> BackPlan
        ensures { result
            ≡ settling self.now.shape.arenas self.now.books.now self.now.number self.now.shape.pools }
    {
        let free = self.free() + 1;
        if free == self.shape.pools {
            return keeps(
                may_leave(self.books, self.shape.arenas, ARENA_LINKS, self.number),
                keeps(
                    may_join(self.books, self.shape.arenas, UNUSED_HEAD),
                    BackPlan::Releases,
                ),
            );
        }
        if free == 1 {
            return keeps(
                may_join(self.books, self.shape.arenas, USABLE_HEAD),
                BackPlan::Returns,
            );
        }
        self.walk()
    }
}
