// A give-back: the record of the block's pool is loaded once, the path is decided from it and from the books before,
// and then written: the block, then its pool's list, then its arena's. Only the arena's part of the path is a value in
// between. The lent buffers are three parameters wherever they are written: of a struct of `&mut`s each function would
// promise besides that its references are still the same. What a give-back goes through is inlined, since a result that
// comes back from a call goes through memory.
ghost use Rattle.std.specs.Prelude.{◌≡◌, ◌*◌, ◌/◌, ◌%◌, ◌<◌, ◌≤◌, OnOk, length};
ghost use Rattle.rules.specs.Books.{
  at,
  alignment_of,
  memory_length,
  unused_head,
  free_pools,
  arena,
  pool_word,
};
ghost use Rattle.rules.specs.Lists.{arena_links};
ghost use Rattle.rules.specs.Outcome.{heap_of, outcome};
ghost use Rattle.rules.specs.GiveBack.{take_back, emptying, given_back, back_step};
ghost use Rattle.rules.specs.Resize.{give_old};
ghost use Rattle.books.specs.Known.{Shaped, BlockAt};
ghost use Rattle.books.specs.Lists.{Links};
ghost use Rattle.steps.specs.Backs.{gave, Counted, FitsEmpty, freed_first, emptied};
ghost use Rattle.steps.specs.Arenas.{ArenaIn, FitsArena, moved_after, released, settled};

use crate::arena::Arena;
use bits::clear_bit;
use books::blocks::is_start;
use books::links::put_link;
use books::lists::{go_in_after, join, leave, leave_by, link_to, may_join, pool_links};
use books::numbers::{Block, live_block};
use books::pool::{Pool, load_pool, store_pool};
use books::reader::Reader;
use books::refusal::Refusal;
use books::words::{
    ARENA_LINKS, CLASS_HEADS, FREE_POOLS, FREED_HEAD, NEXT, OPEN, PREVIOUS, RECORDS, Shape,
    UNUSED_HEAD, USABLE_HEAD, arena_of, index,
};
use rules::BackPlan;

// The block at the offset goes to the front of the freed blocks of its pool, whose record is given.
fn take_back(
    memory: &mut [u8],
    books: &mut [u32],
    map: &mut [u64],
    shape: Shape,
    pool: Pool,
    offset: usize,
    block: Block,
)
    requires { Shaped shape.arenas shape.pools (length memory.old) (length books.old) (length map.old)
        × Counted (alignment_of shape.edition) shape.arenas shape.pools offset block pool books.old }
    ensures { heap_of memory.new books.new map.new
        ≡ take_back (alignment_of shape.edition) shape.arenas shape.pools pool.class (offset / 4096) (offset % 4096)
        (heap_of memory.old books.old map.old) }
{
    let p = offset / 4096;
    store_pool(books, shape.arenas, p, pool.give((offset % 4096) as u32));
    put_link(memory, offset, pool.freeblock);
    clear_bit(map, p, block.number);
}

// Pool p goes to the front of arena a's freed pools.
fn free_pool(books: &mut [u32], arenas: usize, a: usize, p: usize)
    requires { (a < arenas) × (arenas ≤ 16) × (p < 1024) × (pool_word arenas 8 p ≤ length books.old)
        × (arena books.old free_pools a ≤ 64) }
    ensures { books.new ≡ freed_first arenas a p books.old }
{
    let record = RECORDS + 8 * a;
    let own = RECORDS + 8 * arenas + 8 * p;
    let first = books[record + FREED_HEAD];
    books[own + NEXT] = first;
    books[own + PREVIOUS] = 0;
    books[record + FREED_HEAD] = link_to(p);
    books[record + FREE_POOLS] += 1;
}

// Pool p of arena a, at count 0, leaves its class list, by the links of its record, and goes to the front of the
// arena's freed pools.
fn empty_pool(books: &mut [u32], shape: Shape, a: usize, p: usize, pool: Pool)
    requires { ArenaIn shape books.old a × (a ≡ p / shape.pools) × (p < shape.arenas * shape.pools)
        × (pool.class ≤ 63) × FitsEmpty shape.arenas shape.pools p pool books.old }
    ensures { books.new ≡ emptied shape.arenas shape.pools pool.class p books.old }
{
    leave_by(
        books,
        pool_links(shape.arenas),
        CLASS_HEADS + index(pool.class),
        pool.next,
        pool.previous,
        p,
    );
    free_pool(books, shape.arenas, a, p);
}

// Arena a leaves the usable list, and its record becomes 0 but for its place at the front of the unused list.
fn release(books: &mut [u32], shape: Shape, a: usize)
    requires { ArenaIn shape books.old a × Links shape.arenas arena_links a books.old
        × (at books.old unused_head ≤ shape.arenas) }
    ensures { books.new ≡ released a books.old }
{
    leave(books, shape.arenas, ARENA_LINKS, USABLE_HEAD, a);
    // all eight words, from open on
    let first = RECORDS + 8 * a + OPEN;
    let end = first + 8;
    books[first..end].fill(0);
    join(books, shape.arenas, ARENA_LINKS, UNUSED_HEAD, a);
}

// Arena a leaves the usable list and goes in after arena q.
fn move_after(books: &mut [u32], shape: Shape, q: usize, a: usize)
    requires { ArenaIn shape books.old a × FitsArena shape.arenas books.old a (BackPlan.Moves q) }
    ensures { books.new ≡ moved_after q a books.old }
{
    leave(books, shape.arenas, ARENA_LINKS, USABLE_HEAD, a);
    go_in_after(books, shape.arenas, ARENA_LINKS, q, a);
}

// What becomes of arena a, one of whose pools has come free, is written.
fn settle(books: &mut [u32], shape: Shape, a: usize, plan: BackPlan)
    requires { ArenaIn shape books.old a × FitsArena shape.arenas books.old a plan }
    ensures { books.new ≡ settled a plan books.old }
{
    match plan {
        BackPlan::Moves(q) => move_after(books, shape, q, a),
        BackPlan::Returns => join(books, shape.arenas, ARENA_LINKS, USABLE_HEAD, a),
        BackPlan::Releases => release(books, shape, a),
        _ => {}
    }
}

// A give-back with which the pool, whose record is given, falls to count 0.
#[inline(always)]
fn back_last(
    memory: &mut [u8],
    books: &mut [u32],
    map: &mut [u64],
    shape: Shape,
    pool: Pool,
    offset: usize,
    block: Block,
) -> Result<(), Refusal>
    requires { Shaped shape.arenas shape.pools (length memory.old) (length books.old) (length map.old)
        × Counted (alignment_of shape.edition) shape.arenas shape.pools offset block pool books.old }
    ensures { outcome (gave offset result) (heap_of memory.new books.new map.new)
        ≡ given_back (alignment_of shape.edition) shape.arenas shape.pools pool.class
        (heap_of memory.old books.old map.old) offset
        (emptying (alignment_of shape.edition) shape.arenas shape.pools
        books.old pool.class (offset / 4096)) }
{
    let p = offset / 4096;
    let a = arena_of(shape.arenas, shape.pools, p);
    let arena = Arena {
        books,
        shape,
        number: a,
    };
    if !arena.may_empty(pool) {
        return Err(Refusal::Damaged);
    }
    let plan = arena.settling();
    if let BackPlan::Damaged = plan {
        return Err(Refusal::Damaged);
    }
    take_back(memory, books, map, shape, pool, offset, block);
    empty_pool(books, shape, a, p, pool);
    settle(books, shape, a, plan);
    Ok(())
}

// A give-back of the block that is live at the offset.
#[inline(always)]
fn back_step(
    memory: &mut [u8],
    books: &mut [u32],
    map: &mut [u64],
    shape: Shape,
    offset: usize,
    block: Block,
) -> Result<(), Refusal>
    requires { Shaped shape.arenas shape.pools (length memory.old) (length books.old) (length map.old)
        × BlockAt (alignment_of shape.edition) shape.arenas shape.pools books.old map.old offset block }
    ensures { outcome (gave offset result) (heap_of memory.new books.new map.new)
        ≡ back_step (alignment_of shape.edition) shape.arenas shape.pools
        (heap_of memory.old books.old map.old) offset }
{
    let p = offset / 4096;
    let pool = load_pool(books, shape.arenas, p);
    if !pool.may_give() {
        return Err(Refusal::Damaged);
    }
    if pool.freeblock == 0 {
        let all = shape.arenas * shape.pools;
        let head = CLASS_HEADS + index(pool.class);
        if !may_join(books, all, head) {
            return Err(Refusal::Damaged);
        }
        take_back(memory, books, map, shape, pool, offset, block);
        join(books, all, pool_links(shape.arenas), head, p);
        return Ok(());
    }
    if !is_start(block.size, index(pool.freeblock)) {
        return Err(Refusal::Damaged);
    }
    if pool.count == 1 {
        return back_last(memory, books, map, shape, pool, offset, block);
    }
    take_back(memory, books, map, shape, pool, offset, block);
    Ok(())
}

// A give-back of any offset, by what the books and the map show.
#[inline(always)]
pub fn give_old(
    memory: &mut [u8],
    books: &mut [u32],
    map: &mut [u64],
    shape: Shape,
    offset: usize,
) -> Result<(), Refusal>
    requires { Shaped shape.arenas shape.pools (length memory.old) (length books.old) (length map.old) }
    ensures number { outcome (gave offset result) (heap_of memory.new books.new map.new)
        ≡ give_old (alignment_of shape.edition) shape.arenas shape.pools
        (heap_of memory.old books.old map.old) offset }
    ensures inside { OnOk result (offset < memory_length shape.arenas shape.pools) }
{
    let heap = Reader {
        memory,
        books,
        map,
        shape,
    };
    let block = live_block(&heap, offset)?;
    back_step(memory, books, map, shape, offset, block)
}
