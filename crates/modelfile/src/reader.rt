use crate::cursor::ByteCursor;

// What a reader hands out next.
#[derive(Clone, Copy)]
pub(crate) enum Due {
    Header,
    // the choices of the present state that are still to come, then as many states; then the end
    Rows { choices: u32, states: u32 },
}

// Hands out the records of a file one by one.
#[derive(Drop)]
pub struct Reader<'a> {
    pub(crate) cursor: ByteCursor<'a>,
    pub(crate) due: Due,
}
