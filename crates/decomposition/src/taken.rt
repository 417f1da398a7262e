ghost use Rattle.components.specs.Inside.{inside, reach};
ghost use Rattle.model.specs.Held.{table_of};
ghost use Rattle.decomposition.specs.Flags.{Flagged};
ghost use Rattle.decomposition.specs.Marking.{Shows};

use crate::bits::Square;
use crate::kept::Kept;
use model::Model;

// A model with its inside choices, and with marks of what reaches what by them.
#[derive(Clone, Copy)]
pub(crate) struct TakenApart<'a> {
    pub(crate) model: &'a Model,
    pub(crate) kept: &'a Kept,
    pub(crate) square: &'a Square,
    ghost kept_is: { Flagged (table_of model.now) kept.now.flags.items (inside (table_of model.now)) },
    ghost reached: { Shows (table_of model.now).states square.now.rows.items (reach (table_of model.now) (inside (table_of model.now))) },
}
