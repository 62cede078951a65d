// The kind of one offset, by where a block is live, and its entry in the list.
ghost use Rattle.std.specs.Prelude.{◌≡◌, ◌+◌, ◌%◌, ◌^◌, ◌≤◌, ◌<◌, ◌&&◌, Option, IsTrue, length};
ghost use Rattle.compare.specs.Kinds.{is_bit, entry_of, by_side, together, apart, kind_number};
ghost use Rattle.compare.specs.Noted.{Noted};

use crate::bytes::same_block;

// How the two heaps differ at an offset, as the header numbers it.
#[derive(Clone, Copy, Debug, PartialEq, Eq)]
pub enum Kind {
    FirstAlone = 1,
    SecondAlone = 2,
    OtherSize = 3,
    OtherBytes = 4,
}

// Bit j of a word is set.
pub fn has_bit(word: u64, j: usize) -> bool
    requires { j < 64 }
    ensures { result ≡ is_bit word j }
{
    (word >> j) & 1 == 1
}

// The kind of an offset, by the heaps that have a live block there; `in_both` is asked only where both have.
fn kind_by_side<F: FnOnce() -> Option<Kind>>(
    in_first: bool,
    in_second: bool,
    in_both: F,
) -> Option<Kind>
    requires { IsTrue (in_first && in_second) → F.pre in_both }
    ensures { (both : Option Kind) × (IsTrue (in_first && in_second) → F.post in_both both)
        × (kind_number result ≡ by_side in_first in_second (kind_number both)) }
{
    match (in_first, in_second) {
        (true, true) => in_both(),
        (true, false) => Some(Kind::FirstAlone),
        (false, true) => Some(Kind::SecondAlone),
        (false, false) => None,
    }
}

// The kind of a block that has one size in both heaps, if it is live in both.
pub fn kind_together(
    first: &[u8],
    second: &[u8],
    in_first: bool,
    in_second: bool,
    offset: usize,
    size: usize,
) -> Option<Kind>
    requires { (size % 8 ≡ 0) × (offset + size ≤ length first.now) × (offset + size ≤ length second.now) }
    ensures { kind_number result ≡ together first.now second.now in_first in_second offset size }
{
    kind_by_side(in_first, in_second, || {
        if same_block(first, second, offset, size) {
            None
        } else {
            Some(Kind::OtherBytes)
        }
    })
}

// The kind of an offset that has another size in each heap, if it is live in both: its bytes are not looked at.
pub fn kind_apart(in_first: bool, in_second: bool) -> Option<Kind>
    ensures { kind_number result ≡ apart in_first in_second }
{
    kind_by_side(in_first, in_second, || Some(Kind::OtherSize))
}

// The entry of an offset, if it has a kind, from word `at` of the list on: the place after it. Where the list has no
// room for it, it is only counted. The list is lent whole, with a place beside it, since of what is written through an
// iterator over it a proof knows nothing.
pub fn note(list: &mut [u32], at: usize, offset: usize, kind: Option<Kind>) -> usize
    requires { (offset < 2 ^ 32) × (at + length (entry_of offset (kind_number kind)) < 2 ^ 32) }
    ensures noted { Noted list.old at (entry_of offset (kind_number kind)) list.new result }
    ensures counted { length list.old < at + length (entry_of offset (kind_number kind)) → list.new ≡ list.old }
{
    let Some(kind) = kind else {
        return at;
    };
    if at + 2 <= list.len() {
        list[at] = offset as u32;
        list[at + 1] = kind as u32;
    }
    at + 2
}
