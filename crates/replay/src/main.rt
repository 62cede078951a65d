// Replays records: standard input to standard output, over a fresh heap of one arena of 16 pools. Whole records are
// answered as they arrive, however the input comes in pieces; what is left of the last one waits for the next read.
#![tactic(auto)]

ghost use Rattle.std.specs.Prelude.{◌*◌, ◌-◌, ◌%◌, ◌<◌, ◌≤◌, ◌≡◌, IfOk, length, take, drop};
ghost use Rattle.rules.specs.Outcome.{heap_of};
ghost use Rattle.records.specs.Replies.{Whole};
ghost use Rattle.records.specs.Pieces.{records_in};
ghost use Rattle.replay.specs.Turns.{Answered, Lent, NextKept};

use books::words::{EIGHT, RECORDS, Shape};
use records::replay_records;
use std::fmt;
use std::io::{self, Read, Write};
use std::process::ExitCode;

// One arena of 16 pools, of edition eight, as 01 has it.
const SHAPE: Shape = Shape {
    arenas: 1,
    pools: 16,
    edition: EIGHT,
};

// The lengths of its three buffers.
const MEMORY: usize = SHAPE.arenas * SHAPE.pools * 4096;

const BOOKS: usize = RECORDS + 8 * SHAPE.arenas + 8 * SHAPE.arenas * SHAPE.pools;

const MAP: usize = 8 * SHAPE.arenas * SHAPE.pools;

// The stream that cannot be read, or written, and the reason.
#[derive(Debug, Drop)]
enum Failure {
    Input(io::Error),
    Output(io::Error),
}

impl fmt::Display for Failure {
    fn fmt<W: fmt::Write>(&self, f: &mut fmt::Formatter<W>) -> fmt::Result {
        match self {
            Failure::Input(reason) => write!(f, "standard input: {reason}"),
            Failure::Output(reason) => write!(f, "standard output: {reason}"),
        }
    }
}

// Every record of the input is answered, and its replies stand at the front of the output: how many bytes they are. The
// heap is whole and there is room, so nothing is refused. (The five buffers go one by one here: of a struct of `&mut`s
// each function would have to promise besides that it holds the same five.)
fn answer(
    memory: &mut [u8],
    books: &mut [u32],
    map: &mut [u64],
    input: &[u8],
    output: &mut [u8],
) -> usize
    requires { Whole memory.old books.old map.old
        × (16 * records_in (length input.now) ≤ length output.old) }
    ensures { Answered (heap_of memory.old books.old map.old)
        input.now output.old
        (heap_of memory.new books.new map.new) output.new result
        × Whole memory.new books.new map.new }
{
    replay_records(memory, books, map, input, output).unwrap()
}

// The records that are whole in the input are answered, and the bytes after them go to its front.
fn answer_whole(
    memory: &mut [u8],
    books: &mut [u32],
    map: &mut [u64],
    input: &mut [u8],
    output: &mut [u8],
) -> usize
    requires { Whole memory.old books.old map.old × (length input.old ≤ length output.old) }
    ensures { let rest = length input.old % 16 in
        let whole = length input.old - rest in
        Answered (heap_of memory.old books.old map.old)
        (take whole input.old) output.old
        (heap_of memory.new books.new map.new) output.new result
        × (take rest input.new ≡ drop whole input.old)
        × Whole memory.new books.new map.new }
{
    let rest = input.len() % 16;
    let whole = input.len() - rest;
    let written = answer(memory, books, map, &input[..whole], output);
    input.copy_within(whole.., 0);
    written
}

// Reads once, after the bytes that are kept at the front of the input, and answers the records that are whole; at the
// end of the input, the short one. How many bytes are kept of a record that has not arrived whole, and none at the end.
// Where a stream fails the heap is whole all the same.
fn turn(
    rt: &HostRuntime,
    memory: &mut [u8],
    books: &mut [u32],
    map: &mut [u64],
    input: &mut [u8],
    output: &mut [u8],
    kept: usize,
) -> Result<Option<usize>, Failure>
    requires { Lent memory.old books.old map.old input.old output.old × (kept < 16) }
    ensures { Whole memory.new books.new map.new × IfOk result NextKept }
{
    let got = rt.stdin().read(&mut input[kept..]).map_err(Failure::Input)?;
    if got == 0 {
        let n = answer(memory, books, map, &input[..kept], output);
        rt.stdout()
            .write_all(&output[..n])
            .map_err(Failure::Output)?;
        return Ok(None);
    }
    let here = kept + got;
    let n = answer_whole(memory, books, map, &mut input[..here], output);
    rt.stdout()
        .write_all(&output[..n])
        .map_err(Failure::Output)?;
    Ok(Some(here % 16))
}

// Turn after turn, to the end of the input. A proved loop has to end, and nothing says that the input does: so the
// turns are counted, up to a number that no run comes to.
fn replay_all(
    rt: &HostRuntime,
    memory: &mut [u8],
    books: &mut [u32],
    map: &mut [u64],
    input: &mut [u8],
    output: &mut [u8],
) -> Result<(), Failure>
    requires { Lent memory.old books.old map.old input.old output.old }
{
    let mut kept: usize = 0;
    for _ in 0..u64::MAX {
        let Some(n) = turn(rt, memory, books, map, input, output, kept)? else {
            return Ok(());
        };
        kept = n;
    }
    Ok(())
}

// The lengths are exact, so the format is done: the proof of what `replay_all` requires rests on it. A stream that
// fails is told on standard error.
fn main(rt: HostRuntime) -> io::Result<ExitCode> {
    let mut memory = [0u8; MEMORY];
    let mut books = [0u32; BOOKS];
    let mut map = [0u64; MAP];
    let mut input = [0u8; 65536];
    let mut output = [0u8; 65536];
    heap::format(&memory, &mut books, &mut map, SHAPE).unwrap();
    match replay_all(
        &rt,
        &mut memory,
        &mut books,
        &mut map,
        &mut input,
        &mut output,
    ) {
        Ok(()) => Ok(ExitCode::SUCCESS),
        Err(failure) => {
            eprintln!(&rt; "replay: {failure}")?;
            Ok(ExitCode::FAILURE)
        }
    }
}
