ghost use Rattle.std.specs.Prelude.{◌≡◌};
ghost use Rattle.std.proofs.Props.{props};
ghost use Rattle.rules.specs.Setting.{least_reward, largest_reward};
ghost use Rattle.model.specs.Held.{table_of};
ghost use Rattle.book.specs.Facts.{ListsHold};

use crate::lists::Lists;
use model::Model;

// The engine's own copy of a lawful table, with its components and nodes in flat lists.
#[derive(Drop)]
pub struct Layout {
    pub(crate) model: Model,
    pub(crate) lists: Lists,
    ghost least_is: { model.least ≡ least_reward (table_of model) },
    ghost largest_is: { model.largest ≡ largest_reward (table_of model) },
    ghost held: { ListsHold model lists } by { Prim.hlevel props },
}
