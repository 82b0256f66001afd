// The search for every state that an automaton reaches.
ghost use Rattle.std.specs.Prelude.{◌≡◌, ℕ, ◌<◌, ◌≤◌, [], vec_len, vec_capacity};
ghost use Rattle.blocks.specs.Search.{Expanded, Filled, Grown, Linked, Placed, Searched, allowed};

use crate::automaton::Automaton;
use crate::finding::find;
use crate::refusal::SearchRefusal;
use crate::row::{ROW_NUMBERS, Row};

/// Fills `rows` with the exact block of the automaton, its rows in the order in which they are first
/// met, row by row, letters ascending. Declined where more than `limit` states, or more than 256, are
/// reached; the rows are then empty. Where the rows have room for the limit, memory is never wanted.
pub fn search<A: Automaton>(
    automaton: &A,
    limit: usize,
    rows: &mut Vec<Row<A::State>>,
) -> Result<(), SearchRefusal>
    ensures rows { Searched (A.moves automaton.now) (allowed limit) (vec_capacity rows.old) result rows.new.items }
    ensures room { vec_capacity rows.old ≤ vec_capacity rows.new }
{
    rows.clear();
    let most = limit.min(ROW_NUMBERS);
    let found = Builder { automaton, most }.fill(rows);
    if found.is_err() {
        rows.clear();
    }
    found
}

// Builds the block of an automaton, of at most `most` rows. The rows stay a parameter: a clause on a Vec
// that is lent in a field is no plainer, so their room stands in the contract of each call that adds some.
#[derive(Drop)]
struct Builder<'a, A> {
    automaton: &'a A,
    most: usize,
    ghost numbered: { most ≤ 256 },
}

impl<'a, A: Automaton> Builder<'a, A> {
    // The start, and then row after row.
    fn fill(&self, rows: &mut Vec<Row<A::State>>) -> Result<(), SearchRefusal>
        requires empty { rows.old.items ≡ [] }
        ensures rows { Filled (A.moves self.now.automaton.now) self.now.most (vec_capacity rows.old) result rows.new.items }
        ensures room { vec_capacity rows.old ≤ vec_capacity rows.new }
    {
        self.place(rows, self.automaton.start())?;
        // Counted by hand: rows are added while they are gone through.
        let mut done = 0;
        while done < rows.len() {
            self.expand(rows, done)?;
            done += 1;
        }
        Ok(())
    }

    // Enters the next rows of one row.
    fn expand(&self, rows: &mut Vec<Row<A::State>>, at: usize) -> Result<(), SearchRefusal>
        requires there { at < vec_len rows.old }
        requires grown { Grown (A.moves self.now.automaton.now) self.now.most at 0 rows.old.items }
        ensures rows { Expanded (A.moves self.now.automaton.now) self.now.most at (vec_len rows.old) (vec_capacity rows.old) result rows.new.items }
        ensures room { vec_capacity rows.old ≤ vec_capacity rows.new }
    {
        for letter in 0..self.automaton.letters() {
            let state = self.automaton.step(&rows[at].state, letter);
            let next = self.place(rows, state)?;
            link(rows, at, letter, next);
        }
        Ok(())
    }

    // The row of a state: the one that has it, or a new one.
    fn place(&self, rows: &mut Vec<Row<A::State>>, state: A::State) -> Result<u8, SearchRefusal>
        requires few { vec_len rows.old ≤ self.now.most }
        ensures rows { Placed (A.moves self.now.automaton.now) self.now.most (vec_capacity rows.old) rows.old.items state result rows.new.items }
        ensures room { vec_capacity rows.old ≤ vec_capacity rows.new }
    {
        if let Some(k) = find(self.automaton, rows, &state) {
            return Ok(k as u8);
        }
        let row = rows.len();
        if row >= self.most {
            return Err(SearchRefusal::TooMany);
        }
        rows.push(Row {
            state,
            next: [0; 16],
        })?;
        Ok(row as u8)
    }
}

// Row `at` goes on to `row` by the letter.
fn link<S: Drop>(rows: &mut Vec<Row<S>>, at: usize, letter: u8, row: u8)
    requires there { at < vec_len rows.old }
    requires few { letter < 16 }
    ensures rows { Linked rows.old.items at letter row rows.new.items }
    ensures room { vec_capacity rows.new ≡ vec_capacity rows.old }
{
    rows[at].next[letter as usize] = row;
}
