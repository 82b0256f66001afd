ghost use Rattle.notation.specs.Notation.{Names};

/// What a node of a pattern is.
// One type with the nodes that a pattern keeps, generic over what a leaf has, would be no plainer: the
// word `leaf` would be `Kind::Leaf(())`.
#[derive(Clone, Copy, PartialEq, Eq, Debug)]
pub enum Kind {
    Never,
    Empty,
    Leaf,
    Seq,
    Alt,
    Star,
}

impl Kind {
    /// The kind that the word names.
    pub fn named(word: &[u8]) -> Option<Kind>
        ensures { Names word.now result }
    {
        match word {
            b"never" => Some(Kind::Never),
            b"empty" => Some(Kind::Empty),
            b"leaf" => Some(Kind::Leaf),
            b"seq" => Some(Kind::Seq),
            b"alt" => Some(Kind::Alt),
            b"star" => Some(Kind::Star),
            _ => None,
        }
    }
}
