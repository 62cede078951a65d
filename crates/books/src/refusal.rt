// Why a call is refused: 01's numbers, with 02's 10 and 12, as the header names them.
ghost use Rattle.std.specs.Prelude.{◌≡◌};
ghost use Rattle.books.specs.Refusals.{number_of};

#[derive(Clone, Copy, Debug, PartialEq, Eq)]
pub enum Refusal {
    // A, P or the edition is out of range.
    OutOfRange = 1,
    // A lent length is not exact.
    NotExact = 2,
    // The size is 0 or above 512.
    BadSize = 3,
    NoRoom = 4,
    // No block is there.
    NoBlock = 5,
    // The books are damaged.
    Damaged = 6,
    // The text is longer than its block, or what is lent for an answer is too short.
    DoesNotFit = 7,
    // The block was given back, or never handed out.
    DeadBlock = 10,
    // The two heaps differ in A, P or the edition.
    UnequalShape = 12,
}

impl From<Refusal> for u32 {
    ghost from_gives = { λ refusal number. number ≡ number_of refusal };

    fn from(refusal: Refusal) -> u32 {
        refusal as u32
    }
}
