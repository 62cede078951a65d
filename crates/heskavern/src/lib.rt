// The calls of 01, and 02's batch, audit and comparison, for C and Rust: the calls of crates heap, batch, audit and
// compare under names that the archive exports, each with the promise of the call that it passes on.
// include/heskavern.h declares them. A slice is a pointer and its length in elements there. View and the stand-in are
// made there from `heskavern_view_size`, since an exported function cannot return a slice.
#![tactic(auto)]

ghost use Rattle.std.specs.Prelude.{◌≡◌, Ok, Err};
ghost use Rattle.rules.specs.Outcome.{heap_of};
ghost use Rattle.rules.specs.Promises.{
  FormatPromise,
  AskPromise,
  AskAllPromise,
  GiveBackPromise,
  ResizePromise,
  ViewSizePromise,
  WritePromise,
  RollCallPromise,
  AuditNumberPromise,
  ComparePromise,
};
ghost use Rattle.heskavern.specs.Answers.{answer_in, sized_in, rolled_in, compared_in};
ghost use Rattle.heskavern.specs.Answers.{laid_out, laid_out_done, laid_out_moved};

use books::refusal::Refusal;
use books::words::Shape;
use rules::Request;
use steps::resize::ResizeRefusal;

// What each call answers: 01's number, and the offset, block size or count that stands beside it. The results of crates
// heap, batch and compare, in the layout of C.
#[repr(C)]
#[derive(Clone, Copy)]
pub struct HeskavernAnswer {
    pub number: u32,
    pub value: u32,
}

// A call that is done: the value beside 0.
fn done(value: u32) -> HeskavernAnswer
    ensures { result ≡ laid_out (Ok value) }
{
    HeskavernAnswer { number: 0, value }
}

// A call that is refused: the number, and no value.
fn refused(refusal: Refusal) -> HeskavernAnswer
    ensures { result ≡ laid_out (Err refusal) }
{
    HeskavernAnswer {
        number: u32::from(refusal),
        value: 0,
    }
}

impl From<Result<u32, Refusal>> for HeskavernAnswer {
    ghost from_gives = { λ outcome answer. answer ≡ laid_out outcome };

    fn from(outcome: Result<u32, Refusal>) -> HeskavernAnswer {
        match outcome {
            Ok(value) => done(value),
            Err(refusal) => refused(refusal),
        }
    }
}

impl From<Result<(), Refusal>> for HeskavernAnswer {
    ghost from_gives = { λ outcome answer. answer ≡ laid_out_done outcome };

    fn from(outcome: Result<(), Refusal>) -> HeskavernAnswer {
        match outcome {
            Ok(()) => done(0),
            Err(why) => refused(why),
        }
    }
}

impl From<Result<u32, ResizeRefusal>> for HeskavernAnswer {
    ghost from_gives = { λ outcome answer. answer ≡ laid_out_moved outcome };

    fn from(outcome: Result<u32, ResizeRefusal>) -> HeskavernAnswer {
        match outcome {
            Ok(offset) => done(offset),
            Err(ResizeRefusal::Refused(refusal)) => refused(refusal),
            Err(ResizeRefusal::HalfDone(value)) => HeskavernAnswer {
                number: u32::from(Refusal::Damaged),
                value,
            },
        }
    }
}

// Format: makes a fresh heap of so many arenas and pools, of the edition 0, eight, or 1, sixteen.
#[unsafe(no_mangle)]
pub extern "C" fn heskavern_format(
    memory: &[u8],
    books: &mut [u32],
    map: &mut [u64],
    arenas: usize,
    pools: usize,
    edition: usize,
) -> HeskavernAnswer
    ensures { FormatPromise (heap_of memory.now books.old map.old)
        (heap_of memory.now books.new map.new) arenas pools edition (answer_in result) }
{
    let shape = Shape {
        arenas,
        pools,
        edition,
    };
    HeskavernAnswer::from(heap::format(memory, books, map, shape))
}

// Ask: hands out a block of at least `size` bytes; the value is its offset.
#[unsafe(no_mangle)]
pub extern "C" fn heskavern_ask(
    memory: &mut [u8],
    books: &mut [u32],
    map: &mut [u64],
    size: usize,
) -> HeskavernAnswer
    ensures { AskPromise (heap_of memory.old books.old map.old)
        (heap_of memory.new books.new map.new) size (answer_in result) }
{
    HeskavernAnswer::from(heap::ask(memory, books, map, size))
}

// Ask all: each request of the row is the ask for its size, one after the other; the value is 0.
#[unsafe(no_mangle)]
pub extern "C" fn heskavern_ask_all(
    memory: &mut [u8],
    books: &mut [u32],
    map: &mut [u64],
    requests: &mut [Request],
) -> HeskavernAnswer
    ensures { AskAllPromise (heap_of memory.old books.old map.old)
        (heap_of memory.new books.new map.new)
        requests.old requests.new (answer_in result) }
{
    HeskavernAnswer::from(batch::ask_all(memory, books, map, requests))
}

// Give back: the block is live no more; the value is the offset.
#[unsafe(no_mangle)]
pub extern "C" fn heskavern_give_back(
    memory: &mut [u8],
    books: &mut [u32],
    map: &mut [u64],
    offset: usize,
) -> HeskavernAnswer
    ensures { GiveBackPromise (heap_of memory.old books.old map.old)
        (heap_of memory.new books.new map.new) offset (answer_in result) }
{
    HeskavernAnswer::from(heap::give_back(memory, books, map, offset))
}

// Resize: the block is kept, or its text moves to a block of at least `size` bytes; the value is where
// the text is then.
#[unsafe(no_mangle)]
pub extern "C" fn heskavern_resize(
    memory: &mut [u8],
    books: &mut [u32],
    map: &mut [u64],
    offset: usize,
    size: usize,
) -> HeskavernAnswer
    ensures { ResizePromise (heap_of memory.old books.old map.old)
        (heap_of memory.new books.new map.new) offset size (answer_in result) }
{
    HeskavernAnswer::from(heap::resize(memory, books, map, offset, size))
}

// View's companion: its number and, when done, the block size.
#[unsafe(no_mangle)]
pub extern "C" fn heskavern_view_size(
    memory: &[u8],
    books: &[u32],
    map: &[u64],
    offset: usize,
) -> HeskavernAnswer
    ensures { ViewSizePromise (heap_of memory.now books.now map.now)
        (heap_of memory.now books.now map.now) offset (sized_in result) }
{
    HeskavernAnswer::from(heap::view_size(memory, books, map, offset))
}

// Write: copies the text to the start of a live block; the value is the offset.
#[unsafe(no_mangle)]
pub extern "C" fn heskavern_write(
    memory: &mut [u8],
    books: &[u32],
    map: &[u64],
    offset: usize,
    text: &[u8],
) -> HeskavernAnswer
    ensures { WritePromise (heap_of memory.old books.now map.now)
        (heap_of memory.new books.now map.now) offset text.now (answer_in result) }
{
    HeskavernAnswer::from(heap::write(memory, books, map, offset, text))
}

// Roll call: its number and, when done, how many blocks are live.
#[unsafe(no_mangle)]
pub extern "C" fn heskavern_roll_call(
    memory: &[u8],
    books: &[u32],
    map: &[u64],
    roll: &mut [u32],
) -> HeskavernAnswer
    ensures { RollCallPromise (heap_of memory.now books.now map.now)
        (heap_of memory.now books.now map.now)
        roll.old roll.new (rolled_in result) }
{
    HeskavernAnswer::from(heap::roll_call(memory, books, map, roll))
}

// Audit: 0 for yes, or the number of the first broken rule.
#[unsafe(no_mangle)]
pub extern "C" fn heskavern_audit(memory: &[u8], books: &[u32], map: &[u64]) -> u32
    ensures { AuditNumberPromise (heap_of memory.now books.now map.now)
        (heap_of memory.now books.now map.now) result }
{
    audit::number_of(audit::audit(memory, books, map))
}

// Compare: its number and, when done, how many offsets differ. What is the second heap's ends in 2.
#[unsafe(no_mangle)]
pub extern "C" fn heskavern_compare(
    memory: &[u8],
    books: &[u32],
    map: &[u64],
    memory2: &[u8],
    books2: &[u32],
    map2: &[u64],
    list: &mut [u32],
    changes: &mut [i32],
) -> HeskavernAnswer
    ensures { ComparePromise (heap_of memory.now books.now map.now)
        (heap_of memory.now books.now map.now)
        (heap_of memory2.now books2.now map2.now)
        (heap_of memory2.now books2.now map2.now)
        list.old list.new changes.old changes.new (compared_in result) }
{
    let compared = compare::compare(memory, books, map, memory2, books2, map2, list, changes);
    HeskavernAnswer::from(compared)
}
