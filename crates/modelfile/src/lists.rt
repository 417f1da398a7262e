ghost use Rattle.std.specs.Prelude.{◌≡◌, length};
ghost use Rattle.modelfile.specs.File.{read_file};
ghost use Rattle.modelfile.specs.Lists.{outcome, answered, after_call, model_states, model_choices, model_branches};
ghost use Rattle.modelfile.specs.Law.{FileLaw};
ghost use Rattle.modelfile.specs.Filling.{counts, filled, tallied, SameLists};

use crate::fault::FileFault;
use crate::fill::Lists;
use crate::loaded::Loaded;
use crate::reader::Reader;
use sources::{ChoiceRow, StateRow};

// Reads a file to its end and puts its rows into lists as far as these reach.
fn walk(file: &[u8], lists: &mut Lists) -> Result<Loaded, FileFault>
    requires { lists.old.used ≡ counts 1 0 0 0 }
    ensures filled { tallied result lists.new.states.now lists.new.choices.now lists.new.branches.now ≡ filled (read_file file.now) lists.old.states.now lists.old.choices.now lists.old.branches.now }
    ensures same { SameLists lists.old lists.new }
{
    let mut reader = Reader::new(file)?;
    // no `for`: the reader is not an `Iterator`, as `next` says
    while let Some(item) = reader.next()? {
        lists.place(&item);
    }
    Ok(lists.used)
}

// Reads a file into the caller's lists, and answers the denominator and how many places of each list are used.
// On a refusal the lists hold what they held before.
// The lists are slices with counts and not `Vec`s: this public function promises to fill the caller's own places, and allocates nothing.
pub fn load(
    file: &[u8],
    states: &mut [StateRow],
    choices: &mut [ChoiceRow],
    branches: &mut [(u32, u32)],
) -> Result<Loaded, FileFault>
    ensures answer { result ≡ answered (outcome file.now (length states.old) (length choices.old) (length branches.old)) }
    ensures states { states.new ≡ after_call (outcome file.now (length states.old) (length choices.old) (length branches.old)) model_states states.old }
    ensures choices { choices.new ≡ after_call (outcome file.now (length states.old) (length choices.old) (length branches.old)) model_choices choices.old }
    ensures branches { branches.new ≡ after_call (outcome file.now (length states.old) (length choices.old) (length branches.old)) model_branches branches.old }
    ensures law { FileLaw file.now }
{
    let mut lists = Lists::new(states, choices, branches);
    // into empty lists: this only counts
    let need = walk(file, &mut Lists::new(&mut [], &mut [], &mut []))?;
    if !lists.fit(&need) {
        return Err(FileFault::ShortList);
    }
    walk(file, &mut lists)
}
