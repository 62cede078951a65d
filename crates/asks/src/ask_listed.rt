// An ask from the front pool of its class list: the pool's record is loaded once, the path is decided from it and from
// the heap before, and the record is stored as the path leaves it. The path is no value in between, which would go
// through memory.
ghost use Rattle.std.specs.Prelude.{◌≡◌, ◌+◌, ◌*◌, ◌<◌, ◌≤◌, length};
ghost use Rattle.rules.specs.Books.{alignment_of, put_map_bit, offset_of};
ghost use Rattle.rules.specs.Blocks.{block_no};
ghost use Rattle.rules.specs.Outcome.{heap_of, outcome};
ghost use Rattle.rules.specs.Ask.{asked, no_link, from_listed};
ghost use Rattle.books.specs.Known.{Shaped};
ghost use Rattle.books.specs.Refusals.{answer_in};
ghost use Rattle.books.specs.Starts.{Start};
ghost use Rattle.asks.specs.AskPath.{Front};

use bits::set_bit;
use books::blocks::block_no;
use books::links::{link_at, put_link};
use books::lists::{leave_by, pool_links};
use books::pool::{Pool, load_pool, store_pool};
use books::refusal::Refusal;
use books::words::{CLASS_HEADS, Shape, index};
use plans::ask::spare;
use plans::class::Class;

// The block at f of pool p becomes live, and its offset is the answer.
pub fn hand_out(map: &mut [u64], class: Class, p: usize, f: usize) -> u32
    requires { Start class.size f × (p < 1024) × (8 * p + 8 ≤ length map.old) }
    ensures { (result ≡ offset_of p f) × (map.new ≡ put_map_bit p (block_no class.size f) 1 map.old) }
{
    set_bit(map, p, block_no(class.size, f));
    (4096 * p + f) as u32
}

// The freeblock of the front pool p, whose record is given, has no link: the block at nextoffset follows it, or the
// pool is full and leaves its list.
#[inline(always)]
fn ask_unlinked(
    memory: &mut [u8],
    books: &mut [u32],
    map: &mut [u64],
    shape: Shape,
    class: Class,
    p: usize,
    pool: Pool,
) -> Result<u32, Refusal>
    requires { Shaped shape.arenas shape.pools (length memory.old) (length books.old) (length map.old)
        × Front shape.arenas shape.pools class.size p pool books.old }
    ensures { outcome (answer_in result) (heap_of memory.new books.new map.new)
        ≡ asked (alignment_of class.edition) shape.arenas shape.pools class.number
        (heap_of memory.old books.old map.old)
        (no_link (alignment_of class.edition) shape.arenas shape.pools
        (heap_of memory.old books.old map.old) class.number p) }
{
    let Shape { arenas, pools, .. } = shape;
    let f = index(pool.freeblock);
    if pool.nextoffset <= pool.maxnextoffset {
        let m = index(pool.nextoffset);
        if !spare(map, p, class.size, m) {
            return Err(Refusal::Damaged);
        }
        store_pool(books, arenas, p, pool.expose(class.size as u32));
        put_link(memory, 4096 * p + m, 0);
        return Ok(hand_out(map, class, p, f));
    }
    if !pool.may_leave(arenas * pools) {
        return Err(Refusal::Damaged);
    }
    store_pool(books, arenas, p, pool.take(0));
    leave_by(
        books,
        pool_links(arenas),
        CLASS_HEADS + class.number,
        pool.next,
        pool.previous,
        p,
    );
    Ok(hand_out(map, class, p, f))
}

// The front pool p of the class list.
#[inline(always)]
pub fn ask_listed(
    memory: &mut [u8],
    books: &mut [u32],
    map: &mut [u64],
    shape: Shape,
    class: Class,
    p: usize,
) -> Result<u32, Refusal>
    requires { Shaped shape.arenas shape.pools (length memory.old) (length books.old) (length map.old)
        × (p < shape.arenas * shape.pools) }
    ensures { outcome (answer_in result) (heap_of memory.new books.new map.new)
        ≡ asked (alignment_of class.edition) shape.arenas shape.pools class.number
        (heap_of memory.old books.old map.old)
        (from_listed (alignment_of class.edition) shape.arenas shape.pools
        (heap_of memory.old books.old map.old) class.number p) }
{
    let pool = load_pool(books, shape.arenas, p);
    if !pool.may_serve(class.number, class.size) {
        return Err(Refusal::Damaged);
    }
    let f = index(pool.freeblock);
    if !spare(map, p, class.size, f) {
        return Err(Refusal::Damaged);
    }
    let l = index(link_at(memory, 4096 * p + f));
    if l == 0 {
        return ask_unlinked(memory, books, map, shape, class, p, pool);
    }
    if !spare(map, p, class.size, l) {
        return Err(Refusal::Damaged);
    }
    store_pool(books, shape.arenas, p, pool.take(l as u32));
    Ok(hand_out(map, class, p, f))
}
