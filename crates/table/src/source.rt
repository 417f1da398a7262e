ghost use Rattle.std.specs.Prelude.{◌≡◌};
ghost use Rattle.table.specs.Table.{Table, ZeroOutside};

// A source stands for one table, which may break the limits, and answers six questions from it.
// No question is refused, and asking twice gives the same answer and alters nothing.
// A state, a choice and a branch travel together, and are no type: each question asks of another one, by its numbers.
pub trait Source {
    ghost table: { Self → Table };

    // How many states there are. This answer also promises that outside the table each number is 0.
    fn states(&self) -> u32
        ensures value { result ≡ (table self.now).states }
        ensures outside { ZeroOutside (table self.now) };

    fn denominator(&self) -> u32
        ensures { result ≡ (table self.now).denominator };

    fn choices(&self, state: u32) -> u32
        ensures { result ≡ (table self.now).choices state };

    fn reward(&self, state: u32, choice: u32) -> i32
        ensures { result ≡ (table self.now).reward state choice };

    fn branches(&self, state: u32, choice: u32) -> u32
        ensures { result ≡ (table self.now).branches state choice };

    // A branch is its successor and its weight.
    fn branch(&self, state: u32, choice: u32, branch: u32) -> (u32, u32)
        ensures { result ≡ (table self.now).branch state choice branch };
}
