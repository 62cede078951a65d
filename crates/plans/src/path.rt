// A step's path, decided from the heap before it, by the rules that the used words keep.
ghost use Rattle.std.specs.Prelude.{◌≡◌, if◌then◌else◌};

use rules::{AskPlan, BackPlan};

// The path of a step, which may end at damaged books.
pub trait Path: Copy {
    ghost DAMAGED: { Self };

    const DAMAGED: Self;
}

impl Path for AskPlan {
    ghost use Rattle.rules.specs.declared.AskPlan.TheVariants.{Damaged};

    ghost DAMAGED = { Damaged };

    const DAMAGED: AskPlan = AskPlan::Damaged;
}

impl Path for BackPlan {
    ghost use Rattle.rules.specs.declared.BackPlan.TheVariants.{Damaged};

    ghost DAMAGED = { Damaged };

    const DAMAGED: BackPlan = BackPlan::Damaged;
}

// A rule of number 6 that a used word keeps, and the rest of the path.
pub fn keeps<P: Path>(rule: bool, rest: P) -> P
    ensures { result ≡ (if rule then rest else P.DAMAGED) }
{
    if rule { rest } else { P::DAMAGED }
}
