// A class of blocks, by its number and their size.
ghost use Rattle.std.specs.Prelude.{◌≡◌, ◌≤◌};
ghost use Rattle.rules.specs.Books.{alignment_of};
ghost use Rattle.rules.specs.Blocks.{class_of, size_of};

use books::blocks::{class_of, size_for};

#[derive(Clone, Copy)]
pub struct Class {
    pub edition: usize,
    pub number: usize,
    pub size: usize,
    ghost number_high: { number ≤ 63 },
    ghost sized: { size ≡ size_of (alignment_of edition) number },
    ghost size_low: { 8 ≤ size },
    ghost size_high: { size ≤ 512 },
}

impl Class {
    // The class that serves n bytes.
    pub fn serving(edition: usize, n: usize) -> Class
        requires { (edition ≤ 1) × (1 ≤ n) × (n ≤ 512) }
        ensures { (result.edition ≡ edition) × (result.number ≡ class_of (alignment_of edition) n) }
    {
        Class {
            edition,
            number: class_of(edition, n),
            size: size_for(edition, n),
        }
    }
}
