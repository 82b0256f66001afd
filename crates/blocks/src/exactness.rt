// Whether a block is exact.
ghost use Rattle.std.specs.Prelude.{◌≡◌, ℕ, ◌<◌, ◌≤◌, true, length, Decides, slice_index_or};
ghost use Rattle.blocks.specs.Blocks.{Differ, Exact, Named, Steps, origin, state};
ghost use Rattle.blocks.specs.Laws.{Faithful};
ghost use Rattle.blocks.specs.Marks.{Marked};

use crate::automaton::Automaton;
use crate::finding::find;
use crate::row::{ROW_NUMBERS, Row};

/// Whether the rows are an exact block: row 0 is the start, all rows differ, each next row has the
/// state after its letter, and every later row comes next after some row before it. Any rows may be
/// handed in.
pub fn is_exact<A: Automaton>(automaton: &A, rows: &[Row<A::State>]) -> bool
    ensures exact { Decides result (Exact (A.moves automaton.now) rows.now) }
    ensures laws { result ≡ true → Faithful (A.moves automaton.now) rows.now }
{
    let block = Block { automaton, rows };
    block.starts() && block.differ() && block.all_step() && block.come_next()
}

// Rows that are checked against an automaton, one rule after the other.
#[derive(Drop)]
struct Block<'a, A: Automaton> {
    automaton: &'a A,
    rows: &'a [Row<A::State>],
}

impl<'a, A: Automaton> Block<'a, A> {
    // Whether row 0 is there and is the start.
    fn starts(&self) -> bool
        ensures { let m = A.moves self.now.automaton.now in Decides result ((0 < length self.now.rows.now) × m.alike (state m self.now.rows.now 0) m.start) }
    {
        let Block { automaton, rows } = self;
        rows.first()
            .is_some_and(|first| automaton.same(&first.state, &automaton.start()))
    }

    // Whether no two rows have the same state.
    fn differ(&self) -> bool
        ensures { Decides result (Differ (A.moves self.now.automaton.now) self.now.rows.now) }
    {
        for (k, row) in self.rows.iter().enumerate() {
            if find(self.automaton, &self.rows[..k], &row.state).is_some() {
                return false;
            }
        }
        true
    }

    // Whether every next row is there and has the state after its letter.
    fn all_step(&self) -> bool
        ensures { let m = A.moves self.now.automaton.now in Decides result ((i a : ℕ) → i < length self.now.rows.now → a < m.letters → Steps m self.now.rows.now (slice_index_or self.now.rows.now i (origin m)) a) }
    {
        for row in self.rows {
            if !self.steps(row) {
                return false;
            }
        }
        true
    }

    // Whether every next row of one row is there and has the state after its letter.
    fn steps(&self, row: &Row<A::State>) -> bool
        ensures { let m = A.moves self.now.automaton.now in Decides result ((a : ℕ) → a < m.letters → Steps m self.now.rows.now row.now a) }
    {
        row.next[..self.automaton.letters() as usize]
            .iter()
            .enumerate()
            .all(|(letter, next)| self.leads_to(row, letter as u8, *next))
    }

    // Whether the letter leads to the row `next`: that row is there and has the state after it.
    fn leads_to(&self, row: &Row<A::State>, letter: u8, next: u8) -> bool
        requires { letter < (A.moves self.now.automaton.now).letters }
        ensures { let m = A.moves self.now.automaton.now in Decides result ((next < length self.now.rows.now) × m.alike (state m self.now.rows.now next) (m.step row.now.state letter)) }
    {
        let Block { automaton, rows } = self;
        let Some(after) = rows.get(next as usize) else {
            return false;
        };
        automaton.same(&after.state, &automaton.step(&row.state, letter))
    }

    // Whether every later row comes next after some row before it: one pass, in which the rows that
    // have been named are marked.
    fn come_next(&self) -> bool
        ensures { let m = A.moves self.now.automaton.now in Decides result ((j : ℕ) → 0 < j → j < length self.now.rows.now → Named m self.now.rows.now j j) }
    {
        // An array, so that the check allocates nothing.
        let mut named = [false; ROW_NUMBERS];
        named[0] = true;
        for (k, row) in self.rows.iter().enumerate() {
            if named.get(k) != Some(&true) {
                return false;
            }
            mark(self.automaton.letters(), row, &mut named);
        }
        true
    }
}

// Marks the rows that come next after one row.
fn mark<S>(letters: u8, row: &Row<S>, named: &mut [bool; ROW_NUMBERS])
    requires { letters ≤ 16 }
    ensures { Marked letters row.now.next named.old named.new }
{
    for next in &row.next[..letters as usize] {
        named[*next as usize] = true;
    }
}
