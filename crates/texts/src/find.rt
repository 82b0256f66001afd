ghost use Rattle.texts.specs.Parts.{Found};

// Where the first byte `c` at or after the index `from` stands.
pub(crate) fn first_at(bytes: &[u8], from: usize, c: u8) -> Option<usize>
    ensures { Found c bytes.now from result }
{
    let before = bytes.get(from..)?.iter().position(|b| *b == c)?;
    Some(from + before)
}
