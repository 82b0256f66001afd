// Why a search is declined.
ghost use Rattle.blocks.specs.declared.refusal.SearchRefusal.TheVariants.{Memory};
ghost use Rattle.std.specs.Prelude.{◌≡◌};

use std::alloc::AllocFailed;

/// Why a search is declined.
#[derive(Clone, Copy, PartialEq, Eq, Debug)]
pub enum SearchRefusal {
    /// More states are reached than the limit allows.
    TooMany,
    /// There was no memory for the rows: nothing is said of the automaton.
    Memory,
}

// By hand: it is public, and `from_gives` is a promise that no derive makes.
impl<T: Drop> From<AllocFailed<T>> for SearchRefusal {
    ghost from_gives = { λ _ r. r ≡ Memory };

    fn from(_e: AllocFailed<T>) -> SearchRefusal {
        SearchRefusal::Memory
    }
}
