ghost use Rattle.rules.specs.Figures.{Figures};

// The worked figures are what the definitions say.
#[tactic(auto, unfolding(crate::specs::Slacks::load, crate::specs::Slacks::slack_at, crate::specs::Peaks::peak))]
pub fn figures_stand()
    ensures { Figures }
{}
