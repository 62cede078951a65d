// The path of an ask whose class list is empty, decided from the heap before it: a function for each part of the
// rules' path.
ghost use Rattle.std.specs.Prelude.{◌≡◌, ◌&&◌, ◌||◌, not, ◌+◌, ◌*◌, ◌<◌, ◌≤◌, leb, eqb, length};
ghost use Rattle.rules.specs.Books.{at, alignment_of, is_set, none?, unused_head, free_pools, arena};
ghost use Rattle.rules.specs.Blocks.{is_start, block_no};
ghost use Rattle.rules.specs.Lists.{may_leave, arena_links};
ghost use Rattle.rules.specs.Ask.{
  ◌⇛◌,
  set_anew,
  same_class,
  take_again,
  from_mark,
  from_freed,
  front_of,
  from_usable,
  from_unused,
};
ghost use Rattle.books.specs.Readers.{heap_in};
ghost use Rattle.books.specs.Records.{pool_at};
ghost use Rattle.plans.specs.Fits.{plan_new};

use crate::class::Class;
use crate::path::keeps;
use bits::is_set;
use books::blocks::{block_no, is_start};
use books::links::link_at;
use books::lists::may_leave;
use books::pool::{Pool, load_pool};
use books::reader::Reader;
use books::words::{
    ARENA_LINKS, CARVE_MARK, FREE_POOLS, FREED_HEAD, Shape, UNUSED_HEAD, USABLE_HEAD, arena_word,
    index, word,
};
use rules::{AskPlan, Source};

// f is a block start of pool p, and the block is not live.
#[inline(always)]
pub fn spare(map: &[u64], p: usize, size: usize, f: usize) -> bool
    requires { (8 ≤ size) × (size ≤ 512) × (8 * p + 8 ≤ length map.now) }
    ensures { result ≡ (is_start size f && not (is_set map.now p (block_no size f))) }
{
    if is_start(size, f) {
        return !is_set(map, p, block_no(size, f));
    }
    false
}

// A link that can become freeblock: 0, or a spare block's.
fn follows(map: &[u64], p: usize, size: usize, l: usize) -> bool
    requires { (8 ≤ size) × (size ≤ 512) × (8 * p + 8 ≤ length map.now) }
    ensures { result ≡ (none? l || (is_start size l && not (is_set map.now p (block_no size l)))) }
{
    (l == 0) | spare(map, p, size, l)
}

// Pool p is set to the class: its blocks 0 and 1 are spare.
fn set_anew(heap: &Reader, class: Class, source: Source, p: usize) -> AskPlan
    requires { p < heap.now.shape.arenas * heap.now.shape.pools }
    ensures { result ≡ set_anew (alignment_of class.edition) heap.now.shape.arenas heap.now.shape.pools
        (heap_in heap.now) class.number source p }
{
    let first = spare(heap.map, p, class.size, 48);
    let second = spare(heap.map, p, class.size, 48 + class.size);
    keeps(first, keeps(second, AskPlan::Anew(source, p)))
}

// Pool p, whose record is given, is of the class already.
fn same_class(heap: &Reader, class: Class, a: usize, p: usize, pool: Pool) -> AskPlan
    requires { (p < heap.now.shape.arenas * heap.now.shape.pools)
        × (pool ≡ pool_at heap.now.shape.arenas heap.now.books.now p) }
    ensures { result ≡ same_class (alignment_of class.edition) heap.now.shape.arenas heap.now.shape.pools
        (heap_in heap.now) class.number a p }
{
    let f = index(pool.freeblock);
    if spare(heap.map, p, class.size, f) {
        let l = index(link_at(heap.memory, 4096 * p + f));
        return keeps(
            follows(heap.map, p, class.size, l),
            AskPlan::Again(a, p, f, l),
        );
    }
    AskPlan::Damaged
}

// Pool p, whose record is given, just taken from the freed pools.
fn take_again(heap: &Reader, class: Class, a: usize, p: usize, pool: Pool) -> AskPlan
    requires { (p < heap.now.shape.arenas * heap.now.shape.pools)
        × (pool ≡ pool_at heap.now.shape.arenas heap.now.books.now p) }
    ensures { result ≡ take_again (alignment_of class.edition) heap.now.shape.arenas heap.now.shape.pools
        (heap_in heap.now) class.number a p }
{
    if index(pool.class) == class.number {
        return same_class(heap, class, a, p, pool);
    }
    set_anew(heap, class, Source::Freed(a), p)
}

// Arena a, which gives a pool, has some to give, and can leave its list if that was the last; then the rest
// of the path.
fn counted(heap: &Reader, a: usize, rest: AskPlan) -> AskPlan
    requires { a < heap.now.shape.arenas }
    ensures { result
        ≡ ((leb 1 (arena heap.now.books.now free_pools a)
        && leb (arena heap.now.books.now free_pools a) heap.now.shape.pools)
        ⇛ (not (eqb (arena heap.now.books.now free_pools a) 1)
        || may_leave heap.now.shape.arenas arena_links a heap.now.books.now)
        ⇛ rest) }
{
    let free = arena_word(heap.books, FREE_POOLS, a);
    let leaves = (free != 1) | may_leave(heap.books, heap.shape.arenas, ARENA_LINKS, a);
    keeps(
        (1 <= free) & (free <= heap.shape.pools),
        keeps(leaves, rest),
    )
}

// The pool of arena a at this mark.
fn pool_at(heap: &Reader, a: usize, mark: usize) -> usize
    requires { (a < heap.now.shape.arenas) × (mark < heap.now.shape.pools) }
    ensures { (result ≡ a * heap.now.shape.pools + mark)
        × (result < heap.now.shape.arenas * heap.now.shape.pools) }
{
    a * heap.shape.pools + mark
}

// Arena a has no freed pool: the one at its mark is carved.
fn from_mark(heap: &Reader, class: Class, a: usize) -> AskPlan
    requires { a < heap.now.shape.arenas }
    ensures { result ≡ from_mark (alignment_of class.edition) heap.now.shape.arenas heap.now.shape.pools
        (heap_in heap.now) class.number a }
{
    let mark = arena_word(heap.books, CARVE_MARK, a);
    if mark < heap.shape.pools {
        let p = pool_at(heap, a, mark);
        return counted(heap, a, set_anew(heap, class, Source::Carved(a), p));
    }
    AskPlan::Damaged
}

// Arena a's first freed pool is p.
fn from_freed(heap: &Reader, class: Class, a: usize, p: usize) -> AskPlan
    requires { (a < heap.now.shape.arenas) × (p < heap.now.shape.arenas * heap.now.shape.pools) }
    ensures { result ≡ from_freed (alignment_of class.edition) heap.now.shape.arenas heap.now.shape.pools
        (heap_in heap.now) class.number a p }
{
    let Shape { arenas, pools, .. } = heap.shape;
    let pool = load_pool(heap.books, arenas, p);
    let again = take_again(heap, class, a, p, pool);
    keeps(index(pool.next) <= arenas * pools, counted(heap, a, again))
}

// The usable front, arena a.
fn from_usable(heap: &Reader, class: Class, a: usize) -> AskPlan
    requires { a < heap.now.shape.arenas }
    ensures { result ≡ from_usable (alignment_of class.edition) heap.now.shape.arenas heap.now.shape.pools
        (heap_in heap.now) class.number a }
{
    match arena_word(heap.books, FREED_HEAD, a).checked_sub(1) {
        None => from_mark(heap, class, a),
        Some(p) if p < heap.shape.arenas * heap.shape.pools => from_freed(heap, class, a, p),
        Some(_) => AskPlan::Damaged,
    }
}

// The unused front, arena a, is opened.
fn from_unused(heap: &Reader, class: Class, a: usize) -> AskPlan
    requires { a < heap.now.shape.arenas }
    ensures { result ≡ from_unused (alignment_of class.edition) heap.now.shape.arenas heap.now.shape.pools
        (heap_in heap.now) class.number a }
{
    let p = pool_at(heap, a, 0);
    keeps(
        may_leave(heap.books, heap.shape.arenas, ARENA_LINKS, a),
        set_anew(heap, class, Source::Opened(a), p),
    )
}

// The class list and the usable list are empty.
fn plan_unused(heap: &Reader, class: Class) -> AskPlan
    ensures { result ≡ front_of (at heap.now.books.now unused_head) heap.now.shape.arenas
        (from_unused (alignment_of class.edition) heap.now.shape.arenas heap.now.shape.pools
        (heap_in heap.now) class.number)
        AskPlan.NoRoom }
{
    match word(heap.books, UNUSED_HEAD).checked_sub(1) {
        None => AskPlan::NoRoom,
        Some(a) if a < heap.shape.arenas => from_unused(heap, class, a),
        Some(_) => AskPlan::Damaged,
    }
}

// The class list is empty: a new pool is taken.
#[inline(always)]
pub fn plan_new(heap: &Reader, class: Class) -> AskPlan
    ensures { result ≡ plan_new (alignment_of class.edition) heap.now.shape.arenas heap.now.shape.pools
        (heap_in heap.now) class.number }
{
    match word(heap.books, USABLE_HEAD).checked_sub(1) {
        None => plan_unused(heap, class),
        Some(a) if a < heap.shape.arenas => from_usable(heap, class, a),
        Some(_) => AskPlan::Damaged,
    }
}
