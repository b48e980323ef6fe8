// Layers that stand on any rule and are rules again.
ghost use Rattle.std.specs.Prelude.{◌≡◌, ◌≤◌, ℕ, ℤ, ◌≤ℤ◌, pos, is_ok, IfOk, IfErr, nat_le};
ghost use Rattle.std.proofs.Common.{ap};
ghost use Rattle.tasks.specs.declared.refusals.Refusal.TheVariants.{OutOfRange};
ghost use Rattle.rules.specs.Layers.{lowest, reserved, capped};
ghost use Rattle.rules.specs.Ints.{reserved_mono, reserved_bounds, capped_mono, capped_bounds};

use crate::answer::Answer;
use crate::question::Question;
use crate::rule::Rule;
use std::marker::PhantomData;
use tasks::refusals::Refusal;

const LOWEST: i64 = -1_000_000_000_000_000;

// What a layer of some ticks makes of each slack and each tolerance of the rule below.
pub trait Turn {
    ghost turned: { ℕ → ℤ → ℤ };

    fn turn(ticks: u32, slack: i64) -> i64
        ensures { result ≡ turned ticks slack };

    ghost keeps_order: { (n : ℕ) (a b : ℤ) → a ≤ℤ b → turned n a ≤ℤ turned n b };

    ghost keeps_bounds: { (n : ℕ) (z : ℤ) → n ≤ 1000000 → lowest ≤ℤ z → z ≤ℤ pos 1000000 → (lowest ≤ℤ turned n z) × (turned n z ≤ℤ pos 1000000) };
}

// Lowers by the ticks, but never below -10^15.
#[derive(Clone, Copy, PartialEq, Eq, Debug)]
pub struct Lower;

impl Turn for Lower {
    ghost turned = { reserved };

    ghost keeps_order = { reserved_mono };

    ghost keeps_bounds = { reserved_bounds };

    fn turn(ticks: u32, slack: i64) -> i64 {
        slack.saturating_sub(i64::from(ticks)).max(LOWEST)
    }
}

// Takes the lesser of it and the ticks.
#[derive(Clone, Copy, PartialEq, Eq, Debug)]
pub struct Limit;

impl Turn for Limit {
    ghost turned = { capped };

    ghost keeps_order = { capped_mono };

    ghost keeps_bounds = { capped_bounds };

    fn turn(ticks: u32, slack: i64) -> i64 {
        slack.min(i64::from(ticks))
    }
}

// A rule with one such turn on it. It tells the moment of the rule below.
#[derive(PartialEq, Eq, Debug, Drop)]
pub struct Layer<R, T> {
    below: R,
    ticks: u32,
    turn: PhantomData<T>,
    ghost small: { ticks ≤ 1000000 },
}

// Keeps some ticks back.
pub type Reserve<R> = Layer<R, Lower>;

// Tells no more than some ticks.
pub type Cap<R> = Layer<R, Limit>;

impl<R: Drop, T> Layer<R, T> {
    // Refuses more than 1,000,000 ticks.
    pub fn new(below: R, ticks: u32) -> Result<Layer<R, T>, Refusal>
        ensures test { is_ok result ≡ nat_le ticks 1000000 }
        ensures made { IfOk result (λ s. (s.below ≡ below) × (s.ticks ≡ ticks)) }
        ensures refused { IfErr result (λ e. e ≡ OutOfRange) }
    {
        if 1_000_000 < ticks {
            return Err(Refusal::OutOfRange);
        }
        Ok(Layer {
            below,
            ticks,
            turn: PhantomData,
        })
    }
}

impl<R: Rule, T: Turn> Rule for Layer<R, T> {
    ghost slack = { λ s ts p t. T.turned s.ticks (R.Rule.slack s.below ts p t) };

    ghost tolerance = { λ s ts p. T.turned s.ticks (R.Rule.tolerance s.below ts p) };

    ghost moment = { λ s ts p. R.Rule.moment s.below ts p };

    ghost agrees = { λ s ts p. ap (T.turned s.ticks) (R.Rule.agrees s.below ts p) };

    ghost prefix = { λ s ts us p a b e.
        let below = R.Rule.prefix s.below ts us p a b e in
        (λ t. ap (T.turned s.ticks) (below.0 t), ap (T.turned s.ticks) below.1, below.2) };

    ghost monotone = { λ s ts us p a b h. T.keeps_order s.ticks _ _ (R.Rule.monotone s.below ts us p a b h) };

    ghost bounded = { λ s ts p a.
        let below = R.Rule.bounded s.below ts p a in
        T.keeps_bounds s.ticks _ s.small below.0 below.1 };

    fn ask(&self, question: Question<'_>) -> Answer {
        let below = self.below.ask(question);
        Answer {
            tolerance: T::turn(self.ticks, below.tolerance),
            ..below
        }
    }
}
