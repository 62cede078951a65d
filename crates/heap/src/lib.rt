// The calls of 01 and 02's stand-in, over three lent buffers: memory, books and map. Each tests in 01's order and then
// takes its step.
// None requires anything of its caller, and the promise of each (`Promises` in crate rules) is one equation: what it
// answers and what it leaves is what the rules say. What a result answers in 01's form, by number and value, `Refusals`
// of crate books says. A call is lent its buffers one by one, as the exported calls are by C.
#![tactic(auto)]

ghost use Rattle.std.specs.Prelude.{◌≡◌, IfOk};
ghost use Rattle.rules.specs.Outcome.{heap_of};
ghost use Rattle.rules.specs.Numbers.{offset_tests};
ghost use Rattle.rules.specs.Promises.{
  FormatPromise,
  AskPromise,
  GiveBackPromise,
  ResizePromise,
  ViewPromise,
  ViewPlace,
  ViewSizePromise,
  StandInPromise,
  StandInPlace,
  WritePromise,
  RollCallPromise,
};
ghost use Rattle.books.specs.Refusals.{number_in, done_in, answer_in, sized_in, rolled_in};
ghost use Rattle.steps.specs.Moved.{moved_in, IsMoved};
ghost use Rattle.heap.specs.Order.{Tested};

use asks::ask::ask_step;
use books::numbers::{Block, live_block, test_fit, test_shape, test_size};
use books::reader::Reader;
pub use books::refusal::Refusal;
pub use books::words::Shape;
use loops::{fresh_books, has_room, put_roll, store};
use steps::give_back::give_old;
pub use steps::resize::ResizeRefusal;
use steps::resize::resize_step;

// Format: makes a fresh heap of the shape. All books and map are written, and no memory.
pub fn format(
    memory: &[u8],
    books: &mut [u32],
    map: &mut [u64],
    shape: Shape,
) -> Result<(), Refusal>
    ensures { FormatPromise (heap_of memory.now books.old map.old)
        (heap_of memory.now books.new map.new) shape.arenas shape.pools shape.edition (done_in result) }
{
    test_fit(memory, books, map, shape)?;
    fresh_books(books, shape);
    map.fill(0);
    Ok(())
}

// The block that is live at the offset, in a heap whose shape is tested first: or the first of 1, 2, 5 and 10 that
// refuses. Inlined, as an ask is.
#[inline(always)]
fn tested_block(memory: &[u8], books: &[u32], map: &[u64], offset: usize) -> Result<Block, Refusal>
    ensures number { number_in result ≡ offset_tests (heap_of memory.now books.now map.now) offset }
    ensures block { IfOk result (Tested memory.now books.now map.now offset) }
{
    let shape = test_shape(memory, books, map)?;
    let heap = Reader {
        memory,
        books,
        map,
        shape,
    };
    live_block(&heap, offset)
}

// Ask: hands out a block of at least `size` bytes; the answer is its offset.
pub fn ask(
    memory: &mut [u8],
    books: &mut [u32],
    map: &mut [u64],
    size: usize,
) -> Result<u32, Refusal>
    ensures { AskPromise (heap_of memory.old books.old map.old)
        (heap_of memory.new books.new map.new) size (answer_in result) }
{
    let shape = test_shape(memory, books, map)?;
    test_size(size)?;
    ask_step(memory, books, map, shape, size)
}

// Give back: the block is live no more; the answer is the offset.
pub fn give_back(
    memory: &mut [u8],
    books: &mut [u32],
    map: &mut [u64],
    offset: usize,
) -> Result<u32, Refusal>
    ensures { GiveBackPromise (heap_of memory.old books.old map.old)
        (heap_of memory.new books.new map.new) offset (answer_in result) }
{
    let shape = test_shape(memory, books, map)?;
    give_old(memory, books, map, shape, offset)?;
    Ok(offset as u32)
}

// Resize: the block is kept, or its text moves to a block of at least `size` bytes; the answer is where
// the text is then.
pub fn resize(
    memory: &mut [u8],
    books: &mut [u32],
    map: &mut [u64],
    offset: usize,
    size: usize,
) -> Result<u32, ResizeRefusal>
    ensures what { ResizePromise (heap_of memory.old books.old map.old)
        (heap_of memory.new books.new map.new) offset size (moved_in result) }
    ensures moved { IsMoved result }
{
    let shape = test_shape(memory, books, map)?;
    test_size(size)?;
    let before = Reader {
        memory,
        books,
        map,
        shape,
    };
    live_block(&before, offset)?;
    resize_step(memory, books, map, shape, offset, size)
}

// View: the block's own part of memory, from its offset on for its size, or the empty part at memory's start. It is the
// stand-in of nothing.
pub fn view<'a, 'b, 'c>(
    memory: &'a [u8],
    books: &'b [u32],
    map: &'c [u64],
    offset: usize,
) -> &'a [u8]
    ensures what { ViewPromise (heap_of memory.now books.now map.now)
        (heap_of memory.now books.now map.now) offset result.now }
    ensures wherever { ViewPlace (heap_of memory.now books.now map.now)
        offset memory.entry.ref_ptr result.ref_ptr }
{
    stand_in(memory, books, map, offset, &memory[0..0])
}

// View's companion: the block size.
pub fn view_size(memory: &[u8], books: &[u32], map: &[u64], offset: usize) -> Result<u32, Refusal>
    ensures { ViewSizePromise (heap_of memory.now books.now map.now)
        (heap_of memory.now books.now map.now) offset (sized_in result) }
{
    let live = tested_block(memory, books, map, offset)?;
    Ok(live.size as u32)
}

// Stand-in: the block's own part of memory, from its offset on for its size, or, where view would refuse, the lent
// phrase itself. That is only handed on, and so may be a part of memory too.
pub fn stand_in<'a, 'b, 'c>(
    memory: &'a [u8],
    books: &'b [u32],
    map: &'c [u64],
    offset: usize,
    phrase: &'a [u8],
) -> &'a [u8]
    ensures what { StandInPromise (heap_of memory.now books.now map.now)
        (heap_of memory.now books.now map.now)
        offset phrase.now phrase.now result.now }
    ensures wherever { StandInPlace (heap_of memory.now books.now map.now)
        offset memory.entry.ref_ptr phrase.entry.ref_ptr result.ref_ptr }
{
    let Ok(block) = tested_block(memory, books, map, offset) else {
        return phrase;
    };
    let end = offset + block.size;
    &memory[offset..end]
}

// Write: the text is copied to the start of the block.
pub fn write(
    memory: &mut [u8],
    books: &[u32],
    map: &[u64],
    offset: usize,
    text: &[u8],
) -> Result<u32, Refusal>
    ensures { WritePromise (heap_of memory.old books.now map.now)
        (heap_of memory.new books.now map.now) offset text.now (answer_in result) }
{
    let block = tested_block(memory, books, map, offset)?;
    if block.size < text.len() {
        return Err(Refusal::DoesNotFit);
    }
    store(memory, offset, text);
    Ok(offset as u32)
}

// Roll call: offset and size of each live block go to the front of the roll; the answer counts them. Nothing is written
// before the room is known to be enough.
pub fn roll_call(
    memory: &[u8],
    books: &[u32],
    map: &[u64],
    roll: &mut [u32],
) -> Result<u32, Refusal>
    ensures { RollCallPromise (heap_of memory.now books.now map.now)
        (heap_of memory.now books.now map.now)
        roll.old roll.new (rolled_in result) }
{
    let shape = test_shape(memory, books, map)?;
    let all = shape.arenas * shape.pools;
    if !has_room(books, map, shape, all, roll.len()) {
        return Err(Refusal::DoesNotFit);
    }
    let words = put_roll(books, map, shape, all, roll);
    Ok((words / 2) as u32)
}
