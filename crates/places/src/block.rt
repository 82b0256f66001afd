// The exact block of a pattern text.
ghost use Rattle.blocks.specs.Search.{allowed};
ghost use Rattle.places.specs.Rows.{Tables};

use crate::refusal::RowsRefusal;
use crate::sets::PlaceSets;
use alphabets::Alphabet;
use bitsets::SmallSet;
use blocks::{Row, search};
use patterns::Pattern;
use std::alloc::Global;

/// The exact block of the place sets of a pattern text, of at most `limit` rows and at most 256: row
/// 0 is the start, each row's next rows are those that the letters lead to, and every place set that
/// some letters lead to stands in one row. Or why there is none: the text is refused, more rows are
/// needed, or there is no memory for them.
pub fn rows_of<A: Alphabet>(
    heap: Global,
    alphabet: &A,
    text: &[u8],
    limit: usize,
) -> Result<Vec<Row<SmallSet>>, RowsRefusal>
    ensures { Tables (A.meaning alphabet.now) text.now (allowed limit) result }
{
    let mut pattern = Pattern::blank(heap);
    pattern.read(heap, alphabet, text)?;
    let mut rows = Vec::new(heap);
    let places = PlaceSets { pattern: &pattern };
    search(&places, limit, &mut rows)?;
    Ok(rows)
}
