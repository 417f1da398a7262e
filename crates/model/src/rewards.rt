ghost use Rattle.std.specs.Prelude.{◌≡◌};
ghost use Rattle.std.specs.Int.{int_min, int_max};
ghost use Rattle.std.specs.List.{reduce};
ghost use Rattle.model.specs.Rewards.{rewards};

use sources::ChoiceRow;

// The least reward of a list of choices; none of an empty one.
pub(crate) fn least_reward(choices: &[ChoiceRow]) -> Option<i32>
    ensures { result ≡ reduce int_min (rewards choices.now) }
{
    choices.iter().map(|row| row.reward).min()
}

// The largest reward of a list of choices; none of an empty one.
pub(crate) fn largest_reward(choices: &[ChoiceRow]) -> Option<i32>
    ensures { result ≡ reduce int_max (rewards choices.now) }
{
    choices.iter().map(|row| row.reward).max()
}
