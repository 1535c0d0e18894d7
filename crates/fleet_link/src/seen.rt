//! Steps, one after another. They take no memory: contracts alone see them.
ghost use Rattle.std.specs.Prelude.{◌≡◌, ◌∷◌, ◌++◌, []};
ghost use Rattle.fleet_link.specs.Playing.{steps_seen};

use scenario_image::Step;
use std::snapshot::Snapshot;

/// Steps, one after another.
#[derive(Drop)]
pub(crate) enum SeenSteps {
    Begun,
    /// These steps, and then this one.
    Then(Snapshot<SeenSteps>, Snapshot<Step>),
}

impl SeenSteps {
    /// With a step more.
    pub(crate) fn with(&self, step: &Step) -> SeenSteps
        ensures { steps_seen result ≡ steps_seen self.now ++ step.now ∷ [] }
    {
        SeenSteps::Then(Snapshot::of(self), Snapshot::of(step))
    }
}
