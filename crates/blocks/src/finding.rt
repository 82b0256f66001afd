// Looking a state up.
ghost use Rattle.blocks.specs.Search.{Finds};

use crate::automaton::Automaton;
use crate::row::Row;

// The row that has the state, if there is one.
pub(crate) fn find<A: Automaton>(
    automaton: &A,
    rows: &[Row<A::State>],
    state: &A::State,
) -> Option<usize>
    ensures { Finds (A.moves automaton.now) rows.now state.now result }
{
    rows.iter()
        .position(|row| automaton.same(&row.state, state))
}
