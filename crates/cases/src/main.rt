// Runs 01's "Cases on each side" and cases of 02's W-201, W-204, W-206, W-211, W-212 and W-214, a line for each: the
// calls of the case in order, with what each answered.
#![tactic(auto)]

use audit::number_of;
use books::words::{
    CLASS, EIGHT, FREEBLOCK, MAXNEXTOFFSET, NEXTOFFSET, RECORDS, SIXTEEN, Shape, pool_word,
};
use heap::{Refusal, ResizeRefusal};
use rules::Verdict;
use std::fmt;
use std::io::{self, Write};

// ---- what is printed

// What a call answered: the offset or the count of one that is done, 0 where it has none, or why it is refused.
#[derive(Clone, Copy)]
struct Answered(Result<u32, Refusal>);

impl From<Result<u32, Refusal>> for Answered {
    fn from(answer: Result<u32, Refusal>) -> Answered {
        Answered(answer)
    }
}

impl From<Result<(), Refusal>> for Answered {
    fn from(answer: Result<(), Refusal>) -> Answered {
        Answered(answer.map(|()| 0))
    }
}

impl From<Result<u32, ResizeRefusal>> for Answered {
    fn from(answer: Result<u32, ResizeRefusal>) -> Answered {
        Answered(match answer {
            Ok(offset) => Ok(offset),
            Err(ResizeRefusal::Refused(refusal)) => Err(refusal),
            // The old block can't be given back where the books are damaged.
            Err(ResizeRefusal::HalfDone(_)) => Err(Refusal::Damaged),
        })
    }
}

impl fmt::Display for Answered {
    fn fmt<W: fmt::Write>(&self, f: &mut fmt::Formatter<W>) -> fmt::Result {
        match self.0 {
            Ok(done) => write!(f, "{done}"),
            Err(refusal) => write!(f, "refused with {}", u32::from(refusal)),
        }
    }
}

// A row of words.
#[derive(Clone, Copy)]
struct Row<'a>(&'a [u32]);

impl fmt::Display for Row<'_> {
    fn fmt<W: fmt::Write>(&self, f: &mut fmt::Formatter<W>) -> fmt::Result {
        write!(f, "[")?;
        for word in self.0 {
            write!(f, " {word}")?;
        }
        write!(f, " ]")
    }
}

// 01's edition, and W-211's.
#[derive(Clone, Copy)]
enum Edition {
    Eight,
    Sixteen,
}

impl Edition {
    const BOTH: [Edition; 2] = [Edition::Eight, Edition::Sixteen];

    // What a case has at this edition.
    fn either<T: Drop>(self, eight: T, sixteen: T) -> T {
        match self {
            Edition::Eight => eight,
            Edition::Sixteen => sixteen,
        }
    }
}

impl From<Edition> for usize {
    fn from(edition: Edition) -> usize {
        edition.either(EIGHT, SIXTEEN)
    }
}

// ---- a heap, and the calls on it, each with its arguments and its answer

// A heap of one arena, the edition that it is formatted in, and where its case is printed. Each length is a parameter
// of its own: a const argument can't be computed from the number of pools.
#[derive(Drop)]
struct Case<'a, const MEMORY: usize, const BOOKS: usize, const MAP: usize> {
    rt: &'a HostRuntime,
    memory: [u8; MEMORY],
    books: [u32; BOOKS],
    map: [u64; MAP],
    pools: usize,
    edition: Edition,
}

type Of16Pools<'a> = Case<'a, 65536, 208, 128>;

type Of2Pools<'a> = Case<'a, 8192, 96, 16>;

impl<'a, const MEMORY: usize, const BOOKS: usize, const MAP: usize> Case<'a, MEMORY, BOOKS, MAP> {
    fn new(rt: &'a HostRuntime, pools: usize, edition: Edition) -> Self {
        Case {
            rt,
            memory: [0; MEMORY],
            books: [0; BOOKS],
            map: [0; MAP],
            pools,
            edition,
        }
    }

    fn formatted(&mut self, edition: usize) -> Answered {
        Answered::from(heap::format(
            &self.memory,
            &mut self.books,
            &mut self.map,
            Shape {
                arenas: 1,
                pools: self.pools,
                edition,
            },
        ))
    }

    // The heap is made anew: so a case begins, by its name.
    fn format(&mut self, name: &str) -> io::Result<()> {
        let answer = self.formatted(self.edition.into());
        let pools = self.pools;
        let told = self.edition.either("", ", sixteen");
        print!(self.rt; "{name}: format 1 by {pools}{told} -> {answer}")
    }

    // So a case ends.
    fn end(&self) -> io::Result<()> {
        println!(self.rt)
    }

    fn asked(&mut self, size: usize) -> Answered {
        Answered::from(heap::ask(&mut self.memory, &mut self.books, &mut self.map, size))
    }

    fn ask(&mut self, size: usize) -> io::Result<()> {
        let answer = self.asked(size);
        print!(self.rt; "; ask {size} -> {answer}")
    }

    // So many asks, and how many of them were served.
    fn asks(&mut self, size: usize, n: usize) -> io::Result<()> {
        let served = (0..n).filter(|_| self.asked(size).0.is_ok()).count();
        print!(self.rt; "; {n} asks of {size}, served {served}")
    }

    fn give_back(&mut self, offset: usize) -> io::Result<()> {
        let answer = Answered::from(heap::give_back(
            &mut self.memory,
            &mut self.books,
            &mut self.map,
            offset,
        ));
        print!(self.rt; "; give back {offset} -> {answer}")
    }

    fn resize(&mut self, offset: usize, size: usize) -> io::Result<()> {
        let answer = Answered::from(heap::resize(
            &mut self.memory,
            &mut self.books,
            &mut self.map,
            offset,
            size,
        ));
        print!(self.rt; "; resize {offset} to {size} -> {answer}")
    }

    fn write(&mut self, offset: usize, bytes: &[u8]) -> io::Result<()> {
        let answer = Answered::from(heap::write(
            &mut self.memory,
            &self.books,
            &self.map,
            offset,
            bytes,
        ));
        let n = bytes.len();
        print!(self.rt; "; write {n} bytes to {offset} -> {answer}")
    }

    fn size(&self, offset: usize) -> io::Result<()> {
        let answer = Answered::from(heap::view_size(&self.memory, &self.books, &self.map, offset));
        print!(self.rt; "; size at {offset} -> {answer}")
    }

    // How long the view is, and its first n bytes, where it has as many.
    fn view(&self, offset: usize, n: usize) -> io::Result<()> {
        let block = heap::view(&self.memory, &self.books, &self.map, offset);
        print!(self.rt; "; view of {offset}, {} bytes", block.len())?;
        if let Some(front) = block.get(..n) {
            print!(self.rt; ": ")?;
            self.rt.stdout().write_all(front)?;
        }
        Ok(())
    }

    // What is spoken for an offset: the block's own bytes, or the phrase.
    fn stand_in(&self, offset: usize, phrase: &[u8]) -> io::Result<()> {
        let spoken = heap::stand_in(&self.memory, &self.books, &self.map, offset, phrase);
        print!(self.rt; "; stand-in at {offset}, {} bytes: ", spoken.len())?;
        self.rt.stdout().write_all(spoken)
    }

    // What the audit says.
    fn audit(&self) -> io::Result<()> {
        match audit::audit(&self.memory, &self.books, &self.map) {
            Verdict::Yes => print!(self.rt; "; audit -> yes"),
            broken => print!(self.rt; "; audit -> rule {}", number_of(broken)),
        }
    }

    // A roll call over the words, and all of them as it leaves them.
    fn roll_call(&self, words: &mut [u32]) -> io::Result<()> {
        let answer = Answered::from(heap::roll_call(&self.memory, &self.books, &self.map, words));
        print!(self.rt;
            "; roll call into {} words -> {answer} {}",
            words.len(),
            Row(words)
        )
    }

    // A batch over a row of numbers, all of them as it leaves them: size, number and offset of each request.
    fn ask_rows(&mut self, row: &mut [u32]) -> io::Result<()> {
        let answer = Answered::from(batch::ask_rows(
            &mut self.memory,
            &mut self.books,
            &mut self.map,
            row,
        ));
        print!(self.rt; "; ask all -> {answer} {}", Row(row))
    }

    // A comparison with another heap over the words, all of them as it leaves them, and the change of the smallest
    // blocks, where it is one block or none.
    fn compare(&self, other: &Self, words: &mut [u32]) -> io::Result<()> {
        let mut changes = [0; 64];
        let answer = Answered::from(compare::compare(
            &self.memory,
            &self.books,
            &self.map,
            &other.memory,
            &other.books,
            &other.map,
            words,
            &mut changes,
        ));
        let changed = match changes[0] {
            1 => ", one more",
            -1 => ", one fewer",
            0 => ", as many",
            _ => "",
        };
        print!(self.rt;
            "; compare into {} words -> {answer} {}{changed}",
            words.len(),
            Row(words)
        )
    }
}

// ---- K1 to K10

impl Of16Pools<'_> {
    // Pool 0's record.
    fn pool(&self) -> io::Result<()> {
        let freeblock = pool_word(&self.books, 1, FREEBLOCK, 0);
        let nextoffset = pool_word(&self.books, 1, NEXTOFFSET, 0);
        let last = pool_word(&self.books, 1, MAXNEXTOFFSET, 0);
        print!(self.rt;
            "; pool 0: freeblock {freeblock}, nextoffset {nextoffset}, maxnextoffset {last}"
        )
    }

    fn k1(&mut self) -> io::Result<()> {
        self.format("K1")?;
        self.ask(1)?;
        self.pool()?;
        self.end()
    }

    fn k2(&mut self) -> io::Result<()> {
        self.format("K2")?;
        self.ask(1)?;
        self.ask(self.edition.either(8, 16))?;
        self.pool()?;
        self.end()
    }

    fn k3(&mut self) -> io::Result<()> {
        self.format("K3")?;
        self.ask(1)?;
        self.ask(1)?;
        self.give_back(48)?;
        self.ask(self.edition.either(8, 16))?;
        self.end()
    }

    fn k4(&mut self) -> io::Result<()> {
        self.format("K4")?;
        self.ask(self.edition.either(8, 16))?;
        self.ask(self.edition.either(9, 17))?;
        self.end()
    }

    fn k5(&mut self) -> io::Result<()> {
        self.format("K5")?;
        self.ask(1)?;
        self.ask(1)?;
        self.ask(self.edition.either(9, 17))?;
        self.give_back(48)?;
        self.give_back(self.edition.either(56, 64))?;
        self.ask(self.edition.either(8, 16))?;
        self.end()
    }

    fn k6(&mut self) -> io::Result<()> {
        self.format("K6")?;
        self.ask(1)?;
        self.ask(self.edition.either(9, 17))?;
        self.give_back(48)?;
        self.ask(self.edition.either(17, 33))?;
        self.end()
    }

    // At sixteen the line says the class too, the last one: 31.
    fn k7(&mut self) -> io::Result<()> {
        self.format("K7")?;
        self.ask(0)?;
        self.ask(513)?;
        self.ask(512)?;
        self.pool()?;
        if let Edition::Sixteen = self.edition {
            print!(self.rt; ", class {}", pool_word(&self.books, 1, CLASS, 0))?;
        }
        self.end()
    }

    // The block of 100 bytes has 104, and 112 at sixteen: three quarters of it are 78, and 84.
    fn k8(&mut self) -> io::Result<()> {
        self.format("K8")?;
        self.ask(100)?;
        self.size(48)?;
        self.resize(48, self.edition.either(79, 85))?;
        self.resize(48, self.edition.either(78, 84))?;
        self.end()
    }

    // Three quarters of the smallest block are 6 bytes, and 12 at sixteen.
    fn k9(&mut self) -> io::Result<()> {
        self.format("K9")?;
        self.ask(self.edition.either(8, 16))?;
        self.resize(48, self.edition.either(6, 12))?;
        self.resize(self.edition.either(56, 64), self.edition.either(7, 13))?;
        self.end()
    }

    // No block starts at 52, and at sixteen none at 56.
    fn k10(&mut self) -> io::Result<()> {
        self.format("K10")?;
        self.ask(1)?;
        self.give_back(self.edition.either(52, 56))?;
        self.give_back(0)?;
        self.give_back(65536)?;
        self.give_back(48)?;
        self.give_back(48)?;
        self.end()
    }

    fn k1_to_k10(&mut self) -> io::Result<()> {
        self.k1()?;
        self.k2()?;
        self.k3()?;
        self.k4()?;
        self.k5()?;
        self.k6()?;
        self.k7()?;
        self.k8()?;
        self.k9()?;
        self.k10()
    }
}

// ---- the other cases

const LETTERS: &[u8] =
    b"abcdefghijklmnopqrstuvwxyzabcdefghijklmnopqrstuvwxyzabcdefghijklmnopqrstuvwxyzabcdefghijklmnopqrstuvwxyz";

const PHRASE: &[u8] = b"this amount can't be read out";

impl Of16Pools<'_> {
    // 104 bytes are carried over to a block that holds 105.
    fn carries(&mut self) -> io::Result<()> {
        self.format("Resize")?;
        self.ask(104)?;
        self.write(48, LETTERS)?;
        self.resize(48, 104)?;
        self.resize(48, 105)?;
        self.size(4144)?;
        self.view(4144, 104)?;
        self.end()
    }

    fn no_block(&mut self) -> io::Result<()> {
        self.format("No block")?;
        self.resize(48, 0)?;
        self.resize(48, 1)?;
        self.size(48)?;
        self.view(48, 1)?;
        self.end()
    }

    // A second give-back is of a dead block while the other block holds the arena open, and of none once it is
    // released.
    fn dead_block(&mut self) -> io::Result<()> {
        self.format("Dead block")?;
        self.ask(8)?;
        self.ask(8)?;
        self.give_back(48)?;
        self.give_back(48)?;
        self.resize(48, 1)?;
        self.write(48, b"paid")?;
        self.size(48)?;
        self.view(48, 1)?;
        self.give_back(72)?;
        self.give_back(56)?;
        self.give_back(56)?;
        self.end()
    }

    // A text that does not fit and a roll with a word too few are refused and write nothing; a roll leaves the words
    // after it.
    fn rolls(&mut self) -> io::Result<()> {
        self.format("Roll call")?;
        self.roll_call(&mut [])?;
        self.ask(8)?;
        self.ask(9)?;
        self.write(48, b"overdrawn")?;
        self.write(48, b"owed")?;
        self.view(48, 4)?;
        self.roll_call(&mut [9; 3])?;
        self.roll_call(&mut [9; 4])?;
        self.roll_call(&mut [9; 6])?;
        self.end()
    }

    // A block speaks while it is live, and then the phrase, never what was once there; an empty phrase is allowed.
    fn stands_in(&mut self) -> io::Result<()> {
        self.format("Stand-in")?;
        self.stand_in(48, PHRASE)?;
        self.ask(8)?;
        self.write(48, b"owed 100")?;
        self.stand_in(48, PHRASE)?;
        self.give_back(48)?;
        self.stand_in(48, PHRASE)?;
        self.stand_in(48, b"")?;
        self.end()
    }

    // There is no third edition.
    fn no_edition(&mut self) -> io::Result<()> {
        let answer = self.formatted(2);
        println!(self.rt;
            "No edition: format 1 by {}, edition 2 -> {answer}",
            self.pools
        )
    }
}

impl Of2Pools<'_> {
    // The 506th ask for 8 bytes gives 4,088, the 507th 4,144, the 1,012th 8,184, the 1,013th is refused; a block given
    // back is served again. At sixteen a pool holds 253 blocks: the 253rd ask for 16 bytes gives 4,080, the 254th
    // 4,144, the 506th 8,176, the 507th is refused.
    fn fill_by_smallest(&mut self) -> io::Result<()> {
        let size = self.edition.either(8, 16);
        self.format(self.edition.either("Asks of 8", "Asks of 16"))?;
        self.asks(size, self.edition.either(505, 252))?;
        self.ask(size)?;
        self.ask(size)?;
        self.asks(size, self.edition.either(504, 251))?;
        self.ask(size)?;
        self.ask(size)?;
        self.give_back(self.edition.either(840, 832))?;
        self.ask(size)?;
        self.end()
    }

    // The 7th ask gives 3,120, the 15th is refused.
    fn fill_by_512(&mut self) -> io::Result<()> {
        self.format("Asks of 512")?;
        self.asks(512, 6)?;
        self.ask(512)?;
        self.asks(512, 7)?;
        self.ask(512)?;
        self.end()
    }

    // A bit in a pool that is not carved leaves rule 4 whole and breaks rule 5, and a count that is not that of the
    // bits leaves rule 6 whole and breaks rule 7.
    fn audits(&mut self) -> io::Result<()> {
        self.format("Audits")?;
        self.audit()?;
        self.ask(512)?;
        self.ask(512)?;
        self.ask(512)?;
        self.audit()?;
        print!(self.rt; "; bit 0 of pool 1 is set")?;
        self.map[8] = 1;
        self.audit()?;
        print!(self.rt; ", and is not; pool 0 has count 7")?;
        self.map[8] = 0;
        self.books[RECORDS + 8] = 7;
        self.audit()?;
        self.end()
    }

    // A statement in one call: a size of 0, and no room for a third class, stop nothing; two words past the last
    // request stay. Then A is out of range, and the row is left as it came.
    fn batches(&mut self) -> io::Result<()> {
        self.format("Ask all")?;
        self.ask_rows(&mut [4, 9, 9, 0, 9, 9, 17, 9, 9, 40, 9, 9, 4, 9, 9, 5, 6])?;
        self.ask(4)?;
        print!(self.rt; "; A is 17")?;
        self.books[0] = 17;
        self.ask_rows(&mut [4, 9, 9])?;
        self.end()
    }

    // A heap that holds one text.
    fn hold(&mut self, name: &str, bytes: &[u8]) -> io::Result<()> {
        self.format(name)?;
        self.ask(bytes.len())?;
        self.write(48, bytes)
    }

    // The two heaps, exchanged, with room for one word less, and the first beside itself.
    fn side_by_side(&self, second: &Self) -> io::Result<()> {
        self.compare(second, &mut [9; 5])?;
        second.compare(self, &mut [9; 5])?;
        self.compare(second, &mut [9; 3])?;
        self.compare(self, &mut [9; 1])
    }
}

// A block has other bytes in the second heap, and one is live there alone.
fn compares(rt: &HostRuntime, edition: Edition) -> io::Result<()> {
    let mut first = Of2Pools::new(rt, 2, edition);
    let mut second = Of2Pools::new(rt, 2, edition);
    first.hold("Compares", b"owed")?;
    second.hold("; beside", b"Moss")?;
    second.ask(4)?;
    first.side_by_side(&second)?;
    first.end()
}

// The cases of P = 16, in edition eight and then in sixteen.
fn of_16_pools(rt: &HostRuntime) -> io::Result<()> {
    let mut case = Of16Pools::new(rt, 16, Edition::Eight);
    case.k1_to_k10()?;
    case.carries()?;
    case.no_block()?;
    case.dead_block()?;
    case.rolls()?;
    case.stands_in()?;
    case.edition = Edition::Sixteen;
    case.k1_to_k10()?;
    case.no_edition()
}

// The cases of P = 2.
fn of_2_pools(rt: &HostRuntime) -> io::Result<()> {
    let mut case = Of2Pools::new(rt, 2, Edition::Eight);
    case.fill_by_smallest()?;
    case.fill_by_512()?;
    case.edition = Edition::Sixteen;
    case.fill_by_smallest()?;
    for edition in Edition::BOTH {
        case.edition = edition;
        case.audits()?;
    }
    for edition in Edition::BOTH {
        case.edition = edition;
        case.batches()?;
    }
    for edition in Edition::BOTH {
        compares(rt, edition)?;
    }
    Ok(())
}

fn main(rt: HostRuntime) -> io::Result<()> {
    of_16_pools(&rt)?;
    of_2_pools(&rt)
}
