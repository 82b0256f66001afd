/// What a field says. A word stays a part of the text.
// No Result: neither case is a failure.
#[derive(Clone, Copy, PartialEq, Eq, Debug)]
pub enum Token<'a> {
    Word(&'a [u8]),
    Number(u64),
}
