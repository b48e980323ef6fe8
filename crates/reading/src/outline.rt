// What reading finds: the heads of the routines and of the tasks.
use crate::heads::Heads;
use std::marker::Model;

#[derive(Clone, Copy, Debug, PartialEq, Eq)]
pub struct Outline {
    pub routines: Heads,
    pub tasks: Heads,
}

// Its value has the same two fields. It has a model since its fields have: so it is copied as other values are.
impl Model for Outline {
    ghost use Rattle.reading.specs.Outlines.{Outline};

    ghost Value = { Outline };

    ghost view = { λ o. record { routines = o.routines; tasks = o.tasks } };

    ghost inverse = { λ o. record { routines = o.routines; tasks = o.tasks } };
}
