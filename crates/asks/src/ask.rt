// An ask: from its class list, or from a new pool. Here are the writes of a new pool, in the order of the rules: a
// function for each part of a path. What an ask goes through is inlined, here and in crate plans, since a result that
// comes back from a call goes through memory. The lent buffers are three parameters wherever they are written: of a
// struct of `&mut`s each function would promise besides that its references are still the same.
ghost use Rattle.std.specs.Prelude.{◌≡◌, ℕ, ◌+◌, ◌*◌, ◌<◌, ◌≤◌, length};
ghost use Rattle.rules.specs.Say.{◌▷◌};
ghost use Rattle.rules.specs.Books.{at, alignment_of, put, on_books, put_word, usable_head, carve_mark, freed_head};
ghost use Rattle.rules.specs.Books.{arena_word, arena};
ghost use Rattle.rules.specs.Books.{
  freeblock,
  pool_next,
  class as pool_class,
  nextoffset,
  maxnextoffset,
  pool_word,
  pool,
};
ghost use Rattle.rules.specs.Blocks.{last_start};
ghost use Rattle.rules.specs.Lists.{arena_links};
ghost use Rattle.rules.specs.Outcome.{heap_of, outcome};
ghost use Rattle.rules.specs.Ask.{carve, take_from, arena_of, spend, alone, asked, ask_step};
ghost use Rattle.books.specs.Known.{Shaped};
ghost use Rattle.books.specs.Lists.{Links};
ghost use Rattle.books.specs.Refusals.{answer_in};
ghost use Rattle.plans.specs.Fits.{FitsSource, FitsNew};
ghost use Rattle.asks.specs.HandOut.{Writes, opened, Spends};

use crate::ask_listed::{ask_listed, hand_out};
use books::links::put_link;
use books::lists::{join_by, leave, link_to};
use books::pool::{load_pool, store_pool};
use books::reader::Reader;
use books::refusal::Refusal;
use books::words::{
    ARENA_LINKS, CARVE_MARK, CLASS, CLASS_HEADS, FREE_POOLS, FREED_HEAD, NEXT, NO_CLASS, OPEN,
    RECORDS, Shape, UNUSED_HEAD, USABLE_HEAD, word,
};
use plans::ask::plan_new;
use plans::class::Class;
use rules::{AskPlan, Source};

// The first freed pool p of arena a is taken: the next one becomes the head.
fn take_freed(books: &mut [u32], arenas: usize, a: usize, p: usize)
    requires { (a < arenas) × (pool_word arenas 8 p ≤ length books.old) }
    ensures { Writes (on_books (λ b. put (arena_word freed_head a) (pool arenas b pool_next p) b))
        books.old books.new }
{
    let at = RECORDS + 8 * arenas + 8 * p;
    let next = books[at + NEXT];
    let head = RECORDS + 8 * a + FREED_HEAD;
    books[head] = next;
}

// The pool p at the mark of arena a is carved.
fn carve(books: &mut [u32], arenas: usize, a: usize, p: usize)
    requires { (a < arenas) × (pool_word arenas 8 p ≤ length books.old) × (arena books.old carve_mark a < 64) }
    ensures { (al P c : ℕ) → Writes (carve al arenas P c a p) books.old books.new }
{
    let class = RECORDS + 8 * arenas + 8 * p + CLASS;
    books[class] = NO_CLASS;
    let mark = RECORDS + 8 * a + CARVE_MARK;
    books[mark] += 1;
}

// The unused arena a is opened, where no arena is usable: it changes lists, and has all its pools free and none
// carved or freed.
fn open_arena(books: &mut [u32], shape: Shape, a: usize)
    requires { (a < shape.arenas) × (shape.arenas ≤ 16) × (shape.pools ≤ 64)
        × (72 + 8 * shape.arenas ≤ length books.old)
        × Links shape.arenas arena_links a books.old × (at books.old usable_head ≡ 0) }
    ensures { Writes (opened shape.pools a) books.old books.new }
{
    leave(books, shape.arenas, ARENA_LINKS, UNUSED_HEAD, a);
    join_by(books, ARENA_LINKS, USABLE_HEAD, 0, 0, a);
    let at = RECORDS + 8 * a;
    books[at + OPEN] = 1;
    books[at + CARVE_MARK] = 0;
    books[at + FREED_HEAD] = 0;
    books[at + FREE_POOLS] = shape.pools as u32;
}

// Pool p is taken from its source, whose arena is the answer.
fn take_from(books: &mut [u32], shape: Shape, source: Source, p: usize) -> usize
    requires { (shape.arenas ≤ 16) × (2 ≤ shape.pools) × (shape.pools ≤ 64)
        × (pool_word shape.arenas 8 p ≤ length books.old)
        × FitsSource shape.arenas shape.pools books.old source p }
    ensures { (al c : ℕ) → (result ≡ arena_of al shape.arenas shape.pools c source)
        × Writes (take_from al shape.arenas shape.pools c source p) books.old books.new }
{
    match source {
        Source::Freed(a) => {
            take_freed(books, shape.arenas, a, p);
            a
        }
        Source::Carved(a) => {
            carve(books, shape.arenas, a, p);
            a
        }
        Source::Opened(a) => {
            open_arena(books, shape, a);
            carve(books, shape.arenas, a, p);
            a
        }
    }
}

// Arena a has given a pool: it has one free pool fewer, and leaves the usable list if that was the last.
fn spend(books: &mut [u32], arenas: usize, a: usize)
    requires { (arenas ≤ 16) × (72 + 8 * arenas ≤ length books.old) × Spends arenas a books.old }
    ensures { (al P c : ℕ) → Writes (spend al arenas P c a) books.old books.new }
{
    let at = RECORDS + 8 * a + FREE_POOLS;
    let free = books[at] - 1;
    books[at] = free;
    if free == 0 {
        leave(books, arenas, ARENA_LINKS, USABLE_HEAD, a);
    }
}

// Pool p goes alone on the list of its own class, and the link l of its freeblock, which is taken, follows it.
fn list_again(books: &mut [u32], arenas: usize, class: Class, p: usize, l: usize)
    requires { (p ≤ 1024) × (pool_word arenas 8 p ≤ length books.old) × (l ≤ 4096) }
    ensures { (al P : ℕ) → Writes (λ h. h ▷ alone al arenas P class.number p
        ▷ put_word (pool_word arenas freeblock p) l) books.old books.new }
{
    books[CLASS_HEADS + class.number] = link_to(p);
    let pool = load_pool(books, arenas, p);
    store_pool(books, arenas, p, pool.again(l as u32));
}

// Pool p goes alone on the list of the class that it is set to: its first block is taken, and its second follows it.
fn list_anew(books: &mut [u32], arenas: usize, class: Class, p: usize)
    requires { (p ≤ 1024) × (pool_word arenas 8 p ≤ length books.old) }
    ensures { (al P : ℕ) → Writes (λ h. h ▷ alone al arenas P class.number p
        ▷ put_word (pool_word arenas pool_class p) class.number
        ▷ put_word (pool_word arenas nextoffset p) (48 + 2 * class.size)
        ▷ put_word (pool_word arenas maxnextoffset p) (last_start class.size)
        ▷ put_word (pool_word arenas freeblock p) (48 + class.size)) books.old books.new }
{
    books[CLASS_HEADS + class.number] = link_to(p);
    let pool = load_pool(books, arenas, p);
    store_pool(
        books,
        arenas,
        p,
        pool.anew(class.number as u32, class.size as u32),
    );
}

// The writes of a planned path that takes a new pool, the class list being empty; and the answer.
#[inline(always)]
fn write_new(
    memory: &mut [u8],
    books: &mut [u32],
    map: &mut [u64],
    shape: Shape,
    class: Class,
    plan: AskPlan,
) -> Result<u32, Refusal>
    requires { Shaped shape.arenas shape.pools (length memory.old) (length books.old) (length map.old)
        × FitsNew shape.arenas shape.pools class.size class.number books.old map.old plan }
    ensures { outcome (answer_in result) (heap_of memory.new books.new map.new)
        ≡ asked (alignment_of class.edition) shape.arenas shape.pools class.number
        (heap_of memory.old books.old map.old) plan }
{
    match plan {
        AskPlan::NoRoom => Err(Refusal::NoRoom),
        AskPlan::Again(a, p, f, l) => {
            take_freed(books, shape.arenas, a, p);
            spend(books, shape.arenas, a);
            list_again(books, shape.arenas, class, p, l);
            Ok(hand_out(map, class, p, f))
        }
        AskPlan::Anew(source, p) => {
            let a = take_from(books, shape, source, p);
            spend(books, shape.arenas, a);
            list_anew(books, shape.arenas, class, p);
            let second = 48 + class.size;
            put_link(memory, 4096 * p + second, 0);
            Ok(hand_out(map, class, p, 48))
        }
        // Damaged. Follow, Ready and Last are a listed pool's paths and never a new pool's.
        _ => Err(Refusal::Damaged),
    }
}

// An ask for n bytes.
#[inline(always)]
pub fn ask_step(
    memory: &mut [u8],
    books: &mut [u32],
    map: &mut [u64],
    shape: Shape,
    n: usize,
) -> Result<u32, Refusal>
    requires { Shaped shape.arenas shape.pools (length memory.old) (length books.old) (length map.old)
        × (1 ≤ n) × (n ≤ 512) × (shape.edition ≤ 1) }
    ensures { outcome (answer_in result) (heap_of memory.new books.new map.new)
        ≡ ask_step (alignment_of shape.edition) shape.arenas shape.pools
        (heap_of memory.old books.old map.old) n }
{
    let class = Class::serving(shape.edition, n);
    match word(books, CLASS_HEADS + class.number).checked_sub(1) {
        None => {
            let heap = Reader {
                memory,
                books,
                map,
                shape,
            };
            let plan = plan_new(&heap, class);
            write_new(memory, books, map, shape, class, plan)
        }
        Some(p) if p < shape.arenas * shape.pools => {
            ask_listed(memory, books, map, shape, class, p)
        }
        Some(_) => Err(Refusal::Damaged),
    }
}
