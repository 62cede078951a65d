// 02's batch: a whole statement in a single call. A row of requests, over three lent buffers: each request is an ask,
// one after the other from the front. The shape is tested once, first: no ask changes what these tests read.
// No call requires anything of its caller, and the promise of each (`Promises` in crate rules) is one equation: what it
// answers and what it leaves, in the row too, is what the rules say.
#![tactic(auto)]

ghost use Rattle.std.specs.Prelude.{◌≡◌, OnOk};
ghost use Rattle.rules.specs.Outcome.{heap_of, outcome};
ghost use Rattle.rules.specs.Numbers.{ask};
ghost use Rattle.rules.specs.Batch.{replied, batch_tests};
ghost use Rattle.rules.specs.Promises.{AskAllPromise, AskRowsPromise};
ghost use Rattle.books.specs.Refusals.{number_in, done_in, answer_in};
ghost use Rattle.plans.specs.Kept.{Tested};

use asks::ask::ask_step;
use books::numbers::{test_shape, test_size};
use books::refusal::Refusal;
use books::words::shape_of;
use rules::Request;

// The most requests in a row.
const MOST_ENTRIES: usize = 4096;

// The row can be gone through: the tests that come once, first, are passed, 1 and 2 and then 7.
fn test_batch(memory: &[u8], books: &[u32], map: &[u64], entries: usize) -> Result<(), Refusal>
    ensures number { number_in result ≡ batch_tests (heap_of memory.now books.now map.now) entries }
    ensures tested { OnOk result (Tested (heap_of memory.now books.now map.now)) }
{
    test_shape(memory, books, map)?;
    if MOST_ENTRIES < entries {
        return Err(Refusal::DoesNotFit);
    }
    Ok(())
}

// Ask, on a heap whose shape is tested.
fn ask_tested(
    memory: &mut [u8],
    books: &mut [u32],
    map: &mut [u64],
    size: usize,
) -> Result<u32, Refusal>
    requires { Tested (heap_of memory.old books.old map.old) }
    ensures asks { outcome (answer_in result) (heap_of memory.new books.new map.new)
        ≡ ask (heap_of memory.old books.old map.old) size }
    ensures tested { Tested (heap_of memory.new books.new map.new) }
{
    test_size(size)?;
    let shape = shape_of(books);
    ask_step(memory, books, map, shape, size)
}

// The request with what an ask answered in the places for it.
fn reply(request: Request, asked: Result<u32, Refusal>) -> Request
    ensures { result ≡ replied request (answer_in asked) }
{
    match asked {
        Ok(offset) => Request {
            number: 0,
            offset,
            ..request
        },
        Err(refusal) => Request {
            number: u32::from(refusal),
            offset: 0,
            ..request
        },
    }
}

// One request, on a heap whose shape is tested: the ask for its size, and the answer in the places for it.
fn serve(memory: &mut [u8], books: &mut [u32], map: &mut [u64], request: Request) -> Request
    requires { Tested (heap_of memory.old books.old map.old) }
    ensures heap { heap_of memory.new books.new map.new
        ≡ (ask (heap_of memory.old books.old map.old) request.size).heap }
    ensures places { result ≡ replied request
        (ask (heap_of memory.old books.old map.old) request.size).answer }
    ensures tested { Tested (heap_of memory.new books.new map.new) }
{
    let asked = ask_tested(memory, books, map, request.size as usize);
    reply(request, asked)
}

// What stands in a request's places before it is served is not read.
const UNREAD: u32 = 0;

// Ask all, over a row of numbers: three words for each request, its size and the places for number and offset. Words
// past the last whole one stay.
pub fn ask_rows(
    memory: &mut [u8],
    books: &mut [u32],
    map: &mut [u64],
    row: &mut [u32],
) -> Result<(), Refusal>
    ensures { AskRowsPromise (heap_of memory.old books.old map.old)
        (heap_of memory.new books.new map.new) row.old row.new (done_in result) }
{
    let entries = row.len() / 3;
    test_batch(memory, books, map, entries)?;
    // by the place: of words that `chunks_exact_mut` had lent a proof would know nothing
    for i in 0..entries {
        let at = 3 * i;
        let request = Request {
            size: row[at],
            number: UNREAD,
            offset: UNREAD,
        };
        let served = serve(memory, books, map, request);
        row[at + 1] = served.number;
        row[at + 2] = served.offset;
    }
    Ok(())
}

// Ask all: each request of the row is the ask for its size, on what those before it left; a refusal does not stop the
// rest.
pub fn ask_all(
    memory: &mut [u8],
    books: &mut [u32],
    map: &mut [u64],
    requests: &mut [Request],
) -> Result<(), Refusal>
    ensures { AskAllPromise (heap_of memory.old books.old map.old)
        (heap_of memory.new books.new map.new)
        requests.old requests.new (done_in result) }
{
    test_batch(memory, books, map, requests.len())?;
    // by the place, which the must-fail edit `every_second_struct` goes by
    for i in 0..requests.len() {
        requests[i] = serve(memory, books, map, requests[i]);
    }
    Ok(())
}
