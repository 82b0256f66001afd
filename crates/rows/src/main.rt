// Prints the exact block of the place sets of the pattern in pattern.txt, a line for each row: over
// the service alphabet, or with an argument n over the numbered alphabet of n letters.
#![tactic(auto)]

mod refusal;

use alphabets::{Alphabet, AlphabetRefusal, Numbered, Service};
use bitsets::SmallSet;
use blocks::Row;
use console::{Failure, contents};
use places::{RowsRefusal, rows_of};
use refusal::Refusal;
use std::process::ExitCode;
use std::{env, io};

const PROGRAM: &str = "rows";

const PATTERN: &str = "pattern.txt";

// How many rows are printed at most.
const LIMIT: usize = 256;

fn main(rt: HostRuntime) -> ExitCode {
    console::end(&rt, run(&rt))
}

fn run(rt: &HostRuntime) -> Result<(), Failure<Refusal>> {
    let text = contents(rt, PATTERN)?;
    let asked = alphabet_asked(rt).map_err(|refusal| Failure::Refused(PROGRAM, refusal))?;
    // Two types of alphabet, so two calls of one generic function.
    match asked {
        Some(alphabet) => show(rt, &alphabet, text.as_slice()),
        None => show(rt, &Service, text.as_slice()),
    }
}

// The alphabet that the argument asks for, if there is an argument.
fn alphabet_asked(rt: &HostRuntime) -> Result<Option<Numbered>, Refusal> {
    let Some(word) = env::args(rt)?.nth(1) else {
        return Ok(None);
    };
    let letters = word.parse().map_err(|_| AlphabetRefusal::Letters)?;
    Ok(Some(Numbered::new(letters)?))
}

fn show<A: Alphabet>(rt: &HostRuntime, alphabet: &A, text: &[u8]) -> Result<(), Failure<Refusal>> {
    let rows = rows_of(rt.alloc(), alphabet, text, LIMIT).map_err(refused)?;
    let letters = alphabet.letters();
    for row in rows.as_slice() {
        print_row(rt, letters, row).map_err(Failure::Unwritten)?;
    }
    Ok(())
}

// A text is refused under its file's name, and the search in it under the program's.
fn refused(refusal: RowsRefusal) -> Failure<Refusal> {
    let name = match refusal {
        RowsRefusal::Text(_) => PATTERN,
        RowsRefusal::Rows(_) => PROGRAM,
    };
    Failure::Refused(name, Refusal::Rows(refusal))
}

// The state and its next rows, as in `1,1,2`.
fn print_row(rt: &HostRuntime, letters: u8, row: &Row<SmallSet>) -> io::Result<()> {
    let state = row.state.bits;
    print!(rt; "{state}")?;
    for next in row.next.iter().take(letters as usize) {
        print!(rt; ",{next}")?;
    }
    println!(rt)
}
