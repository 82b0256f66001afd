ghost use Rattle.texts.specs.Lines.{fields_left};
ghost use Rattle.notation.specs.Notation.{Heads};
ghost use Rattle.notation.specs.Fields.{IsName, TakesName, TakesNumber};

use super::heads::Header;
use texts::{Line, Token};

/// Reads the fields that are left of the line as a first line's.
pub fn header(mut line: Line<'_>) -> Option<Header>
    ensures { Heads (fields_left line.entry) result }
{
    if !takes_name(&mut line) {
        return None;
    }
    let version = take_number(&mut line)?;
    if version != 1 {
        return None;
    }
    let letters = take_number(&mut line)?;
    let nodes = take_number(&mut line)?;
    if line.field().is_some() {
        return None;
    }
    Some(Header { letters, nodes })
}

// Takes the next field, which has to be `pattern`.
fn takes_name(line: &mut Line<'_>) -> bool
    ensures { TakesName (fields_left line.old) result (fields_left line.new) }
{
    line.field().is_some_and(is_name)
}

// Whether the field is the word `pattern`.
#[tactic(auto, using(crate::proofs::Steps::number_no_name))]
fn is_name(token: Token<'_>) -> bool
    ensures { IsName token.entry result }
{
    matches!(token, Token::Word(b"pattern"))
}

// Takes the next field, which has to be a number.
fn take_number(line: &mut Line<'_>) -> Option<u64>
    ensures { TakesNumber (fields_left line.old) result (fields_left line.new) }
{
    match line.field()? {
        Token::Number(number) => Some(number),
        Token::Word(_) => None,
    }
}
