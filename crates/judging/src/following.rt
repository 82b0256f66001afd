ghost use Rattle.judging.specs.Following.{Followed};
ghost use Rattle.judging.specs.Judging.{events};
ghost use Rattle.patterns.specs.Patterns.{expr_of};
ghost use Rattle.std.specs.Prelude.{IfOk};

use crate::verdict::Verdict;
use alphabets::Alphabet;
use patterns::pattern::Pattern;
use std::alloc::{AllocError, Global};
use texts::Cursor;

// What the pattern says after each event of the trace.
pub(crate) fn follow<'t, A: Alphabet>(
    heap: Global,
    alphabet: &A,
    pattern: &Pattern,
    trace: &'t [u8],
) -> Result<Vec<Verdict<'t>>, AllocError>
    ensures { IfOk result (λ vs. Followed (expr_of pattern.now) (events (A.meaning alphabet.now) trace.now) vs.items) }
{
    let mut verdicts = Vec::new(heap);
    let mut places = Pattern::start();
    let mut cursor = Cursor::new(trace);
    while let Some(line) = cursor.line() {
        let name = line.bytes();
        let Some(letter) = alphabet.letter(name) else {
            continue;
        };
        places = pattern.take(places, letter);
        let session = pattern.ends(places);
        verdicts.push(Verdict {
            name,
            places,
            session,
        })?;
    }
    Ok(verdicts)
}
