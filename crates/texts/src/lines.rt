ghost use Rattle.std.proofs.Props.{props};
ghost use Rattle.std.specs.Prelude.{◌≡◌, ◌≤◌, [], length, Decides, IfSome};

use super::fields::Token;
use super::find::first_at;
use super::tokens::token;

/// Goes through a text, line after line.
#[derive(Clone, Copy, PartialEq, Eq, Debug)]
pub struct Cursor<'a> {
    text: &'a [u8],
    // A cursor over the lent text, as the project asks (docs/DECISIONS.md, Language forms).
    at: usize,
}

/// The bytes of one line, whose fields are handed out one after another.
#[derive(Clone, Copy, PartialEq, Eq, Debug)]
pub struct Line<'a> {
    bytes: &'a [u8],
    // Where the fields that have not been handed out begin, if one is left.
    at: Option<usize>,
    ghost inside: { IfSome at (λ k. k ≤ length bytes.now) } by { Prim.hlevel props },
}

impl<'a> Cursor<'a> {
    ghost use Rattle.texts.specs.Lines.{rest, whole_text, NextLine};

    /// At the start of the text.
    pub fn new(text: &'a [u8]) -> Cursor<'a>
        ensures rest { rest result ≡ text.now }
        ensures text { whole_text result ≡ text.now }
    {
        Cursor { text, at: 0 }
    }

    /// The next line, which ends with a newline. Bytes after the last newline are no line.
    pub fn line(&mut self) -> Option<Line<'a>>
        ensures line { NextLine self.old result self.new }
        ensures text { self.new.text ≡ self.old.text }
    {
        let end = first_at(self.text, self.at, b'\n')?;
        let bytes = &self.text[self.at..end];
        self.at = end + 1;
        Some(Line { bytes, at: Some(0) })
    }

    /// Whether nothing is left of the text.
    #[tactic(auto, using(std::proofs::lemmas::List::drop_all, crate::proofs::Texts::drop_nil))]
    pub fn at_end(&self) -> bool
        ensures { Decides result (rest self.now ≡ []) }
    {
        self.at >= self.text.len()
    }
}

impl<'a> Line<'a> {
    ghost use Rattle.texts.specs.Lines.{line_bytes, NextField};

    /// The line's bytes, without the newline.
    pub fn bytes(&self) -> &'a [u8]
        ensures { result.now ≡ line_bytes self.now }
    {
        self.bytes
    }

    /// The next field, up to a comma or the line's end.
    pub fn field(&mut self) -> Option<Token<'a>>
        ensures field { NextField self.old result self.new }
        ensures bytes { self.new.bytes ≡ self.old.bytes }
    {
        let at = self.at.take()?;
        let left = &self.bytes[at..];
        match first_at(left, 0, b',') {
            Some(end) => {
                self.at = Some(at + end + 1);
                Some(token(&left[..end]))
            }
            None => Some(token(left)),
        }
    }
}
