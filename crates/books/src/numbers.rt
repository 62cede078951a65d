// The tests that the calls begin with: of the shape, 01's refusals 1 and 2; of a size, 3; of an offset, 5 or 02's 10.
ghost use Rattle.std.specs.Prelude.{◌≡◌, true, [], ◌+◌, ◌*◌, ◌≤◌, IfOk, OnOk, length};
ghost use Rattle.rules.specs.Books.{in_range, is_edition, exact, at};
ghost use Rattle.rules.specs.Blocks.{at_start, dead_number, live_number};
ghost use Rattle.rules.specs.Outcome.{heap_of};
ghost use Rattle.rules.specs.Numbers.{reach_number, edition_number, ◌before◌, fit_number, shape_number, size_number};
ghost use Rattle.books.specs.Known.{Shaped, ReadShape, BlockAt};
ghost use Rattle.books.specs.Refusals.{number_of, number_in};
ghost use Rattle.books.specs.Readers.{alignment_in};

use crate::reader::Reader;
use crate::refusal::Refusal;
use crate::words::{Shape, shape_of};
use crate::{blocks, words};

// So many arenas of so many pools make a heap.
fn in_range(arenas: usize, pools: usize) -> bool
    ensures { result ≡ in_range arenas pools }
{
    (1 <= arenas) & (arenas <= 16) & (2 <= pools) & (pools <= 64)
}

// The number is an edition's: 0 for eight, 1 for sixteen.
fn is_edition(edition: usize) -> bool
    ensures { result ≡ is_edition edition }
{
    edition <= 1
}

// Each buffer is exactly as long as A and P ask.
fn exact(memory: &[u8], books: &[u32], map: &[u64], arenas: usize, pools: usize) -> bool
    requires { (arenas ≤ 16) × (arenas * pools ≤ 1024) }
    ensures { result ≡ exact arenas pools (heap_of memory.now books.now map.now) }
{
    let all = arenas * pools;
    (memory.len() == all * 4096)
        & (books.len() == words::RECORDS + 8 * arenas + 8 * all)
        & (map.len() == 8 * all)
}

// A heap of the given shape fits the buffers.
pub fn test_fit(memory: &[u8], books: &[u32], map: &[u64], shape: Shape) -> Result<(), Refusal>
    ensures number { number_in result
        ≡ fit_number (heap_of memory.now books.now map.now) shape.arenas shape.pools shape.edition }
    ensures fits { OnOk result (Shaped shape.arenas shape.pools (length memory.now) (length books.now)
        (length map.now) × (shape.edition ≤ 1)) }
{
    let Shape {
        arenas,
        pools,
        edition,
    } = shape;
    if !in_range(arenas, pools) {
        return Err(Refusal::OutOfRange);
    }
    if !is_edition(edition) {
        return Err(Refusal::OutOfRange);
    }
    if !exact(memory, books, map, arenas, pools) {
        return Err(Refusal::NotExact);
    }
    Ok(())
}

// Why a heap with a wrong length is refused: the edition, where the books reach it, is tested before the lengths.
fn wrong_length(books: &[u32]) -> Refusal
    ensures { number_of result ≡ (reach_number (heap_of [] books.now []) 68
        before edition_number (at books.now 68) before 2) }
{
    if books.len() <= words::EDITION {
        return Refusal::NotExact;
    }
    if !is_edition(words::word(books, words::EDITION)) {
        return Refusal::OutOfRange;
    }
    Refusal::NotExact
}

// The shape that the books hold, if the heap has it. Books of the right length reach the edition, so that it is asked
// whether they do only where a length is wrong.
pub fn test_shape(memory: &[u8], books: &[u32], map: &[u64]) -> Result<Shape, Refusal>
    ensures number { number_in result ≡ shape_number (heap_of memory.now books.now map.now) }
    ensures shape { IfOk result (ReadShape (heap_of memory.now books.now map.now)) }
{
    if books.len() < 2 {
        return Err(Refusal::NotExact);
    }
    let arenas = words::word(books, 0);
    let pools = words::word(books, 1);
    if !in_range(arenas, pools) {
        return Err(Refusal::OutOfRange);
    }
    if !exact(memory, books, map, arenas, pools) {
        return Err(wrong_length(books));
    }
    let shape = shape_of(books);
    if !is_edition(shape.edition) {
        return Err(Refusal::OutOfRange);
    }
    Ok(shape)
}

// The size is one of a block.
pub fn test_size(n: usize) -> Result<(), Refusal>
    ensures number { number_in result ≡ size_number n }
    ensures size { OnOk result ((1 ≤ n) × (n ≤ 512)) }
{
    if (1 <= n) & (n <= blocks::LARGEST) {
        return Ok(());
    }
    Err(Refusal::BadSize)
}

// Why an offset where a block of its pool would start, but none is live, is refused: whether there is a block at all.
fn not_live(heap: &Reader, offset: usize) -> Refusal
    requires { at_start (alignment_in heap.now) heap.now.shape.arenas heap.now.shape.pools heap.now.books.now offset
        ≡ true }
    ensures { number_of result
        ≡ dead_number (alignment_in heap.now) heap.now.shape.arenas heap.now.shape.pools heap.now.books.now offset }
{
    let Shape { arenas, pools, .. } = heap.shape;
    let p = offset / 4096;
    let next = words::pool_word(heap.books, arenas, words::NEXTOFFSET, p);
    if (offset % 4096 < next) & words::is_carved(heap.books, arenas, pools, p) {
        return Refusal::DeadBlock;
    }
    Refusal::NoBlock
}

// A block: its number in its pool, and its size.
#[derive(Clone, Copy)]
pub struct Block {
    pub number: usize,
    pub size: usize,
}

// The block that is live at the offset. Whoever gives it back need not divide again.
pub fn live_block(heap: &Reader, offset: usize) -> Result<Block, Refusal>
    ensures number { number_in result ≡ live_number (alignment_in heap.now) heap.now.shape.arenas heap.now.shape.pools
        heap.now.books.now heap.now.map.now offset }
    ensures block { IfOk result (BlockAt (alignment_in heap.now) heap.now.shape.arenas heap.now.shape.pools
        heap.now.books.now heap.now.map.now offset) }
{
    if heap.memory.len() <= offset {
        return Err(Refusal::NoBlock);
    }
    let size = blocks::size_at(heap.books, heap.shape.arenas, heap.shape.edition, offset);
    if blocks::LARGEST < size {
        return Err(Refusal::NoBlock);
    }
    let o = offset % 4096;
    if !blocks::is_start(size, o) {
        return Err(Refusal::NoBlock);
    }
    let number = blocks::block_no(size, o);
    if bits::is_set(heap.map, offset / 4096, number) {
        return Ok(Block { number, size });
    }
    Err(not_live(heap, offset))
}
