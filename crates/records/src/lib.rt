// Replay records: one record in, one reply out, over the three buffers of a heap; and a whole piece of a replay,
// records in and replies out.
#![tactic(auto)]

ghost use Rattle.std.specs.Prelude.{◌≡◌, true, ◌+◌, ◌*◌, ◌-◌, ◌%◌, ◌<◌, ◌≤◌, List, ℕ, eqb, length};
ghost use Rattle.std.specs.List.{list_all};
ghost use Rattle.std.proofs.lemmas.List.Edits.{sets};
ghost use Rattle.rules.specs.Books.{at, alignment_of};
ghost use Rattle.rules.specs.Blocks.{size_at};
ghost use Rattle.rules.specs.Outcome.{heap_of};
ghost use Rattle.rules.specs.Numbers.{ask, give_back, resize, block_size};
ghost use Rattle.rules.specs.Replay.{size_in, offset_in, called, called_for, replay_call, replay_record};
ghost use Rattle.books.specs.Refusals.{number_of};
ghost use Rattle.records.specs.Reads.{byte_of, OpOf, Says, ReadFrom};
ghost use Rattle.records.specs.Replies.{Counted, WholeWith, live_in, reply_of, refusal_of, bytes_of, Replies};
ghost use Rattle.records.specs.Live.{Carries};
ghost use Rattle.records.specs.Pieces.{replayed_in, replay_piece};

use books::blocks::size_of;
use books::links::{link_at, put_link};
use books::numbers::test_shape;
use books::words::{CLASS, EDITION, RECORDS, index, shape_of, word_or_none};
use heap::{Refusal, ResizeRefusal};
use loops::count_words;

// ---- a record

// What a record asks for, by the byte that says it.
#[derive(Clone, Copy, Debug, PartialEq, Eq)]
enum Op {
    Ask = 1,
    GiveBack = 2,
    Resize = 3,
}

// Why bytes are no record, by its number: they are too few; or the op is unknown, or a spare byte is not 0.
#[derive(Clone, Copy, Debug, PartialEq, Eq)]
enum Malformed {
    Short = 8,
    Unknown = 9,
}

impl TryFrom<u8> for Op {
    type Error = Malformed;

    ghost try_from_gives = { OpOf };

    fn try_from(byte: u8) -> Result<Op, Malformed> {
        match byte {
            1 => Ok(Op::Ask),
            2 => Ok(Op::GiveBack),
            3 => Ok(Op::Resize),
            _ => Err(Malformed::Unknown),
        }
    }
}

// The call that a record says.
#[derive(Clone, Copy)]
struct Call {
    op: Op,
    size: u32,
    offset: u32,
}

impl Call {
    // The call that the bytes say, where the op is known and the spare bytes are 0.
    fn read(bytes: &[u8]) -> Result<Call, Malformed>
        ensures { ReadFrom bytes.now result }
    {
        if bytes.len() < 16 {
            return Err(Malformed::Short);
        }
        let op = Op::try_from(bytes[0])?;
        if !(all_zero(&bytes[1..4]) & all_zero(&bytes[12..16])) {
            return Err(Malformed::Unknown);
        }
        Ok(Call {
            op,
            size: link_at(bytes, 4),
            offset: link_at(bytes, 8),
        })
    }

    // The reply to the call where it is refused.
    fn refused(self, refusal: Refusal, live: u32) -> Reply
        ensures { result ≡ refusal_of (byte_of self.op) self.offset (number_of refusal) live }
    {
        Reply::refused(self.op as u8, self.offset, refusal as u8, live)
    }

    // The reply to the call where it is done.
    fn done(self, offset: u32, size: u32, live: u32) -> Reply
        ensures { result ≡ reply_of (byte_of self.op) 0 offset size live }
    {
        Reply {
            op: self.op as u8,
            number: 0,
            offset,
            size,
            live,
        }
    }
}

// Every byte is 0.
fn all_zero(bytes: &[u8]) -> bool
    ensures { result ≡ list_all (λ b. eqb b 0) bytes.now }
{
    bytes.iter().all(|b| *b == 0)
}

// ---- a reply

// A reply, before its bytes are written.
#[derive(Clone, Copy)]
struct Reply {
    op: u8,
    number: u8,
    offset: u32,
    size: u32,
    live: u32,
}

impl Reply {
    // A refusal with the number: it repeats the record's op and offset, but 0 for an ask's.
    fn refused(op: u8, offset: u32, number: u8, live: u32) -> Reply
        ensures { result ≡ refusal_of op offset number live }
    {
        let offset = if op == Op::Ask as u8 { 0 } else { offset };
        Reply {
            op,
            number,
            offset,
            size: 0,
            live,
        }
    }

    // The reply's bytes are stored in the output from byte `at` on: by their places, as `put_link` stores a number.
    fn put(self, output: &mut [u8], at: usize)
        requires { at + 16 ≤ length output.old }
        ensures { output.new ≡ sets output.old at (bytes_of self) }
    {
        output[at] = self.op;
        output[at + 1] = self.number;
        output[at + 2] = 0;
        output[at + 3] = 0;
        put_link(output, at + 4, self.offset);
        put_link(output, at + 8, self.size);
        put_link(output, at + 12, self.live);
    }
}

// ---- the live blocks, from one call to the next

// How many blocks are live.
fn live_blocks(books: &[u32], map: &[u64]) -> u32
    requires { Counted books.now map.now }
    ensures { result ≡ live_in books.now map.now }
{
    let shape = shape_of(books);
    let all = shape.arenas * shape.pools;
    (count_words(books, map, shape, all) / 2) as u32
}

// The block at the offset, which an ask has handed out, is not the first of its pool, or is alone there: of the pool's
// bits the first is set, and no other, at a block or at none. An ask that sets its pool to another class hands out the
// first block; on damaged books bits may stand in that pool, and they may begin or cease to count. Nothing is asked of
// the offset.
fn carries(map: &[u64], offset: u32) -> bool
    ensures { result ≡ true → Carries map.now offset }
{
    if offset % 4096 != 48 {
        return true;
    }
    let word = 8 * (index(offset) / 4096);
    matches!(map.get(word..word + 8), Some([1, 0, 0, 0, 0, 0, 0, 0]))
}

// How many blocks are live after an ask that handed out the block at the offset, where `live` were before it: one more.
// They are counted where its pool may have been set to another class.
fn live_after_ask(books: &[u32], map: &[u64], offset: u32, live: u32) -> u32
    requires { Counted books.now map.now × (Carries map.now offset → live + 1 ≡ live_in books.now map.now) }
    ensures { result ≡ live_in books.now map.now }
{
    if !carries(map, offset) {
        return live_blocks(books, map);
    }
    live + 1
}

// How many blocks are live after a resize whose text is now at the offset, where `live` were before it: as many. They
// are counted where it is in a pool's first block, as after an ask.
fn live_after_resize(books: &[u32], map: &[u64], offset: u32, live: u32) -> u32
    requires { Counted books.now map.now × ((offset % 4096 ≡ 48 → ⊥) → live ≡ live_in books.now map.now) }
    ensures { result ≡ live_in books.now map.now }
{
    if offset % 4096 == 48 {
        return live_blocks(books, map);
    }
    live
}

// ---- the reply to one record. The three buffers of the heap go one by one: of a struct of `&mut`s each function would
// have to promise besides that it holds the same three.

// The size of the block at an offset, as far as the four bytes of a reply hold it. Nothing is asked of the books or of
// the offset: a record may hold any.
fn size_at(books: &[u32], offset: u32) -> u32
    ensures { result
        ≡ size_at (alignment_of (at books.now 68)) (at books.now 0) books.now offset
        % 4294967296 }
{
    let arenas = word_or_none(books, 0);
    let pool = index(offset) / 4096;
    let class = word_or_none(books, RECORDS + 8 * arenas + 8 * pool + CLASS);
    let edition = word_or_none(books, EDITION);
    (size_of(edition, class) % 4294967296) as u32
}

// The reply to an ask: its size is that of the block that is handed out.
fn answer_ask(memory: &mut [u8], books: &mut [u32], map: &mut [u64], call: Call, live: u32) -> Reply
    requires { WholeWith live memory.old books.old map.old }
    ensures { (r : List ℕ) → Says r call → Replies result memory.new books.new map.new
        (called_for r (ask (heap_of memory.old books.old map.old) (size_in r))) }
{
    match heap::ask(memory, books, map, index(call.size)) {
        Ok(offset) => {
            let size = size_at(books, offset);
            call.done(offset, size, live_after_ask(books, map, offset, live))
        }
        Err(refusal) => call.refused(refusal, live),
    }
}

// The reply to a give-back: its size is that of the block that is given back, so it is read before.
fn answer_give_back(
    memory: &mut [u8],
    books: &mut [u32],
    map: &mut [u64],
    call: Call,
    live: u32,
) -> Reply
    requires { WholeWith live memory.old books.old map.old }
    ensures { (r : List ℕ) → Says r call → Replies result memory.new books.new map.new
        (called r (give_back (heap_of memory.old books.old map.old) (offset_in r))
        (block_size (heap_of memory.old books.old map.old) (offset_in r))) }
{
    let size = size_at(books, call.offset);
    match heap::give_back(memory, books, map, index(call.offset)) {
        Ok(offset) => call.done(offset, size, live - 1),
        Err(refusal) => call.refused(refusal, live),
    }
}

// The reply to a resize: its size is that of the block that the text is now in. The live blocks are counted where it is
// half done.
fn answer_resize(
    memory: &mut [u8],
    books: &mut [u32],
    map: &mut [u64],
    call: Call,
    live: u32,
) -> Reply
    requires { WholeWith live memory.old books.old map.old }
    ensures { (r : List ℕ) → Says r call → Replies result memory.new books.new map.new
        (called_for r (resize (heap_of memory.old books.old map.old) (offset_in r) (size_in r))) }
{
    match heap::resize(memory, books, map, index(call.offset), index(call.size)) {
        Ok(offset) => {
            let size = size_at(books, offset);
            call.done(offset, size, live_after_resize(books, map, offset, live))
        }
        Err(ResizeRefusal::Refused(refusal)) => call.refused(refusal, live),
        Err(ResizeRefusal::HalfDone(_)) => call.refused(Refusal::Damaged, live_blocks(books, map)),
    }
}

// The reply to a record that is whole and well made: its call is made.
fn answer_call(
    memory: &mut [u8],
    books: &mut [u32],
    map: &mut [u64],
    call: Call,
    live: u32,
) -> Reply
    requires { WholeWith live memory.old books.old map.old }
    ensures { (r : List ℕ) → Says r call → Replies result memory.new books.new map.new
        (replay_call (heap_of memory.old books.old map.old) r) }
{
    match call.op {
        Op::Ask => answer_ask(memory, books, map, call, live),
        Op::GiveBack => answer_give_back(memory, books, map, call, live),
        Op::Resize => answer_resize(memory, books, map, call, live),
    }
}

// The reply to any record, where `live` blocks are live before it. That to an unknown one repeats its op and offset.
fn answer(memory: &mut [u8], books: &mut [u32], map: &mut [u64], bytes: &[u8], live: u32) -> Reply
    requires { WholeWith live memory.old books.old map.old }
    ensures { Replies result memory.new books.new map.new
        (replay_record (heap_of memory.old books.old map.old) bytes.now) }
{
    match Call::read(bytes) {
        Ok(call) => answer_call(memory, books, map, call, live),
        Err(Malformed::Short) => Reply::refused(0, 0, Malformed::Short as u8, live),
        Err(Malformed::Unknown) => {
            Reply::refused(bytes[0], link_at(bytes, 8), Malformed::Unknown as u8, live)
        }
    }
}

// ---- a piece of a replay

// Every record of the input is answered in order, a short one at the end too; the replies stand at the front of the
// output, and the answer is how many bytes they are. Nothing is done on a heap of another shape, or where the output is
// too small.
pub fn replay_records(
    memory: &mut [u8],
    books: &mut [u32],
    map: &mut [u64],
    input: &[u8],
    output: &mut [u8],
) -> Result<usize, Refusal>
    ensures { record {
      answer = replayed_in result;
      output = output.new;
      heap = heap_of memory.new books.new map.new;
    }
        ≡ replay_piece (heap_of memory.old books.old map.old) input.now
        output.old }
{
    test_shape(memory, books, map)?;
    let records = input.len().div_ceil(16);
    if output.len() < 16 * records {
        return Err(Refusal::DoesNotFit);
    }
    let mut live = live_blocks(books, map);
    // the replies are stored by index, since a proof knows nothing of the bytes that `chunks_mut` has lent
    for (i, bytes) in input.chunks(16).enumerate() {
        let reply = answer(memory, books, map, bytes, live);
        reply.put(output, 16 * i);
        live = reply.live;
    }
    Ok(16 * records)
}
