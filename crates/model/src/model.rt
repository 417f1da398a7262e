ghost use Rattle.std.specs.Prelude.{◌≡◌, ◌≤◌, Some, vec_len};
ghost use Rattle.std.specs.Int.{int_min, int_max};
ghost use Rattle.std.specs.List.{reduce};
ghost use Rattle.sources.specs.Rows.{owned_table};
ghost use Rattle.model.specs.declared.sizes.TheConstants.{STATE_PLACES, BRANCH_PLACES};
ghost use Rattle.model.specs.Rewards.{rewards};
ghost use Rattle.model.specs.Room.{HasRoom};
ghost use Rattle.model.specs.Unbroken.{Unbroken};

use sources::OwnedList;

// The engine's own copy of a lawful table, with the least and the largest reward of its rows, in lists with room for every lawful table.
// The fields are public since the inner loops of crate book read the rows themselves; whoever makes a model must prove its facts.
#[derive(Drop)]
pub struct Model {
    pub rows: OwnedList,
    pub least: i32,
    pub largest: i32,
    ghost room: { HasRoom rows },
    ghost few: { vec_len rows.states ≤ STATE_PLACES },
    ghost few_branches: { vec_len rows.branches ≤ BRANCH_PLACES },
    ghost lawful: { Unbroken (owned_table rows) },
    ghost least_is: { reduce int_min (rewards rows.choices.items) ≡ Some least },
    ghost largest_is: { reduce int_max (rewards rows.choices.items) ≡ Some largest },
}
