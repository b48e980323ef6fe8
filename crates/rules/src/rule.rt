ghost use Rattle.std.specs.Prelude.{◌≡◌, ℕ, List, ℤ};
ghost use Rattle.tasks.specs.declared.timings.Timing.{Timing};
ghost use Rattle.rules.specs.Laws.{TellsMoment, FixedAbove, Monotone, Bounded};

use crate::answer::Answer;
use crate::question::Question;

// A tolerance rule. It means a slack for each place and moment, and for each place a tolerance and the moment that it tells.
pub trait Rule {
    ghost slack: { Self → List Timing → ℕ → ℕ → ℤ };

    ghost tolerance: { Self → List Timing → ℕ → ℤ };

    ghost moment: { Self → List Timing → ℕ → ℕ };

    // What the rule means of the place of the table. Nothing is refused, and nothing changes.
    fn ask(&self, question: Question<'_>) -> Answer
        ensures tolerance { result.tolerance ≡ tolerance self.now question.entry.tasks.now question.entry.place }
        ensures moment { result.moment ≡ moment self.now question.entry.tasks.now question.entry.place };

    ghost agrees: { TellsMoment slack tolerance moment };

    ghost prefix: { FixedAbove slack tolerance moment };

    ghost monotone: { Monotone tolerance };

    ghost bounded: { Bounded tolerance };
}
