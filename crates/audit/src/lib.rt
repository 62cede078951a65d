// The audit (02, W-201, with W-203's order as its last rule): yes, or the first broken rule. The buffers are lent to be
// read alone; what is kept on the way stands in locals.
#![tactic(auto)]

pub mod blocks;
pub mod keeps;
pub mod lent;
pub mod lists;
pub mod survey;

ghost use Rattle.std.specs.Prelude.{◌≡◌, length};
ghost use Rattle.rules.specs.Books.{memory_length};
ghost use Rattle.rules.specs.Outcome.{heap_of};
ghost use Rattle.rules.specs.Numbers.{shape_number};
ghost use Rattle.rules.specs.Audit.{audit_by, number_of};
ghost use Rattle.rules.specs.Promises.{AuditPromise};
ghost use Rattle.audit.specs.Survey.{heap_in, alignment_in};

use crate::lent::Lent;
use crate::survey::{Survey, count_bits, find_homes};
use books::numbers::test_shape;
use rules::Verdict;

const MOST_POOLS: usize = 1024;

// The first broken rule, from the second on, of a heap that keeps the first and was surveyed; or yes.
#[tactic(auto, unfolding(rules::specs::Audit::audit_by, rules::specs::Audit::rule1, rules::specs::Audit::number_of))]
fn first_broken(survey: &Survey) -> Verdict
    requires { (shape_number (heap_in survey.now.heap) ≡ 0)
        × (length survey.now.heap.memory.now ≡ memory_length survey.now.heap.shape.arenas survey.now.heap.shape.pools) }
    ensures { number_of result ≡ audit_by (alignment_in survey.now.heap) survey.now.heap.shape.arenas
        survey.now.heap.shape.pools (heap_in survey.now.heap) }
{
    if !survey.rule_2() {
        return Verdict::Zeros;
    }
    if !survey.rule_3() {
        return Verdict::Closed;
    }
    if !survey.rule_4() {
        return Verdict::Open;
    }
    if !survey.rule_5() {
        return Verdict::Bits;
    }
    if !survey.rule_6() {
        return Verdict::Lists;
    }
    if !survey.rule_7() {
        return Verdict::Counts;
    }
    if !survey.rule_8() {
        return Verdict::Blocks;
    }
    if !survey.rule_9() {
        return Verdict::Order;
    }
    Verdict::Yes
}

// Audit: yes, or the first broken rule.
pub fn audit(memory: &[u8], books: &[u32], map: &[u64]) -> Verdict
    ensures { AuditPromise (heap_of memory.now books.now map.now)
        (heap_of memory.now books.now map.now) result }
{
    let Ok(shape) = test_shape(memory, books, map) else {
        return Verdict::Shape;
    };
    // lent here and copied below: bound by value, the borrow checker would see two lifetimes in it
    let heap = &Lent {
        memory,
        books,
        map,
        shape,
    };
    let all = shape.arenas * shape.pools;
    let mut counts: [u16; MOST_POOLS] = [0; MOST_POOLS];
    let counts = &mut counts[..all];
    count_bits(map, counts);
    let mut homes: [u8; MOST_POOLS] = [0; MOST_POOLS];
    let homes = &mut homes[..all];
    find_homes(books, shape, counts, homes);
    first_broken(&Survey {
        heap: *heap,
        counts,
        homes,
    })
}

// The number of a verdict: 0 for yes, and that of the broken rule. It is no `From`, for neither type is of this crate.
pub fn number_of(verdict: Verdict) -> u32
    ensures { result ≡ number_of verdict }
{
    match verdict {
        Verdict::Yes => 0,
        Verdict::Shape => 1,
        Verdict::Zeros => 2,
        Verdict::Closed => 3,
        Verdict::Open => 4,
        Verdict::Bits => 5,
        Verdict::Lists => 6,
        Verdict::Counts => 7,
        Verdict::Blocks => 8,
        Verdict::Order => 9,
    }
}
