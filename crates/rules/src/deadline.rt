ghost use Rattle.std.specs.Prelude.{◌≤ℤ◌};
ghost use Rattle.std.proofs.Common.{ap, ◌∙◌, subst, rules};
ghost use Rattle.rules.specs.Slacks.{slack_at};
ghost use Rattle.rules.specs.Tables.{deadline_at};
ghost use Rattle.rules.specs.Tolerances.{deadline_tolerance};
ghost use Rattle.rules.specs.Demands.{deadline_agrees, slack_agrees, deadline_kept, slack_falls, deadline_small, slack_low, slack_high};

use crate::answer::Answer;
use crate::question::Question;
use crate::rule::Rule;
use crate::slack::{demand_of, left};

// The slack at the deadline, with no look at any other moment.
#[derive(Clone, Copy, PartialEq, Eq, Debug)]
pub struct Deadline;

impl Rule for Deadline {
    ghost slack = { λ s ts p t. slack_at ts p t };

    ghost tolerance = { λ s ts p. deadline_tolerance ts p };

    ghost moment = { λ s ts p. deadline_at ts p };

    ghost agrees = { Prim.search rules };

    ghost prefix = { λ s ts us p a b e.
        let by = deadline_agrees ts us p a.first e in
        (λ t. slack_agrees ts us p t e, slack_agrees ts us p (deadline_at ts p) e ∙ ap (slack_at us p) by, by) };

    ghost monotone = { λ s ts us p a b h. subst (λ t. slack_at us p t ≤ℤ slack_at ts p (deadline_at ts p)) (deadline_kept ts us p a h) (slack_falls ts us p (deadline_at ts p) h) };

    ghost bounded = { λ s ts p a. (slack_low ts p (deadline_at ts p) a (deadline_small ts p), slack_high ts p (deadline_at ts p) (deadline_small ts p)) };

    #[tactic(auto, unfolding(crate::specs::Slacks::slack_at))]
    fn ask(&self, question: Question<'_>) -> Answer {
        let by = question.deadline();
        Answer {
            tolerance: left(by, demand_of(question.tasks_down(), by)),
            moment: by,
        }
    }
}
