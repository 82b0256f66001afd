ghost use Rattle.judging.specs.Judging.{Judges};

use crate::following::follow;
use crate::verdict::Verdict;
use alphabets::Alphabet;
use patterns::pattern::Pattern;
use patterns::refusal::Fault;
use std::alloc::Global;

/// Judges a trace, which has the name of an event on each line, by the text of a procedure: a
/// verdict after each event, or why the text is refused. A line that is no name is passed over.
pub fn judge<'t, A: Alphabet>(
    heap: Global,
    alphabet: &A,
    procedure: &[u8],
    trace: &'t [u8],
) -> Result<Vec<Verdict<'t>>, Fault>
    ensures { Judges (A.meaning alphabet.now) procedure.now trace.now result }
{
    let mut pattern = Pattern::blank(heap);
    pattern.read(heap, alphabet, procedure)?;
    let verdicts = follow(heap, alphabet, &pattern, trace)?;
    Ok(verdicts)
}
