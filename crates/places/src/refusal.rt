// Why there is no block of a pattern text.
ghost use Rattle.places.specs.Refusals.{number};
ghost use Rattle.places.specs.declared.refusal.RowsRefusal.TheVariants.{Text, Rows};
ghost use Rattle.std.specs.Prelude.{◌≡◌};

use blocks::SearchRefusal;
use patterns::Fault;
use thiserror::Error;

/// Why there is no block of a pattern text; printed as in `refused 5 at line 3: ..`, or `refused 98: ..`
/// where there is no line.
#[derive(Clone, Copy, PartialEq, Eq, Debug, Error)]
pub enum RowsRefusal {
    /// The text is refused.
    #[error("{0}")]
    Text(Fault),
    /// The text is read, and the search for its place sets is declined.
    #[error("refused {}: {}", self.number(), words(*.0))]
    Rows(SearchRefusal),
}

impl RowsRefusal {
    /// The refusal's number: that of the text's refusal, 98 for too many rows, 99 for want of memory.
    // A method and no `From`: the number is what people know it by.
    pub fn number(self) -> u8
        ensures { result ≡ number self }
    {
        match self {
            RowsRefusal::Text(fault) => fault.why.number(),
            RowsRefusal::Rows(SearchRefusal::TooMany) => 98,
            RowsRefusal::Rows(SearchRefusal::Memory) => 99,
        }
    }
}

// Why the search for the place sets is declined, in words for a mechanic. They speak of a pattern, which the
// crate of the search doesn't know, so no derive there could print them.
fn words(why: SearchRefusal) -> &'static str {
    match why {
        SearchRefusal::TooMany => "the pattern needs more rows than the limit",
        SearchRefusal::Memory => "there is not enough memory",
    }
}

// By hand, as the next one: they are public, and `from_gives` is a promise that no derive makes.
impl From<Fault> for RowsRefusal {
    ghost from_gives = { λ e r. r ≡ Text e };

    fn from(e: Fault) -> RowsRefusal {
        RowsRefusal::Text(e)
    }
}

impl From<SearchRefusal> for RowsRefusal {
    ghost from_gives = { λ e r. r ≡ Rows e };

    fn from(e: SearchRefusal) -> RowsRefusal {
        RowsRefusal::Rows(e)
    }
}
