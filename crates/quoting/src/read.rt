ghost use Rattle.std.specs.Prelude.{◌≡◌, length};
ghost use Rattle.modelfile.specs.Lists.{outcome};
ghost use Rattle.quoting.specs.Models.{table_read, table_in};

use modelfile::{FileFault, load};
use sources::{ChoiceRow, List, StateRow};

// Reads a model file into the caller's lists, and answers the source that reads them.
pub(crate) fn read_model<'a>(
    file: &[u8],
    states: &'a mut [StateRow],
    choices: &'a mut [ChoiceRow],
    branches: &'a mut [(u32, u32)],
) -> Result<List<'a>, FileFault>
    ensures { table_in result ≡ table_read (outcome file.now (length states.old) (length choices.old) (length branches.old)) }
{
    let used = load(file, states, choices, branches)?;
    Ok(List::new(
        used.denominator,
        &states[..used.states as usize],
        &choices[..used.choices as usize],
        &branches[..used.branches as usize],
    ))
}
