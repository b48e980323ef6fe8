// Layers in either order.
use rules::answer::Answer;
use rules::exact::Exact;
use rules::layers::{Cap, Reserve};
use rules::question::Question;
use rules::rule::Rule;
use tasks::refusals::Refusal;

// The ticks of a reserve and of a cap on the exact rule.
#[derive(Clone, Copy, PartialEq, Eq, Debug)]
pub struct Pile {
    pub reserve: u32,
    pub cap: u32,
}

impl Pile {
    ghost use Rattle.std.specs.Prelude.{◌≡◌, ◌&&◌, is_ok, IfOk, nat_le};
    ghost use Rattle.rules.specs.Layers.{reserved, capped};
    ghost use Rattle.rules.specs.Tolerances.{exact_moment, exact_tolerance};

    // A cap on a reserve on the exact rule.
    pub fn cap_on_reserve(self, question: Question<'_>) -> Result<Answer, Refusal>
        ensures test { is_ok result ≡ (nat_le self.reserve 1000000 && nat_le self.cap 1000000) }
        ensures tolerance { IfOk result (λ a. a.tolerance ≡ capped self.cap (reserved self.reserve (exact_tolerance question.entry.tasks.now question.entry.place))) }
        ensures moment { IfOk result (λ a. a.moment ≡ exact_moment question.entry.tasks.now question.entry.place) }
    {
        let rule = Cap::new(Reserve::new(Exact, self.reserve)?, self.cap)?;
        Ok(rule.ask(question))
    }

    // A reserve on a cap on the exact rule.
    pub fn reserve_on_cap(self, question: Question<'_>) -> Result<Answer, Refusal>
        ensures test { is_ok result ≡ (nat_le self.reserve 1000000 && nat_le self.cap 1000000) }
        ensures tolerance { IfOk result (λ a. a.tolerance ≡ reserved self.reserve (capped self.cap (exact_tolerance question.entry.tasks.now question.entry.place))) }
        ensures moment { IfOk result (λ a. a.moment ≡ exact_moment question.entry.tasks.now question.entry.place) }
    {
        let rule = Reserve::new(Cap::new(Exact, self.cap)?, self.reserve)?;
        Ok(rule.ask(question))
    }
}
