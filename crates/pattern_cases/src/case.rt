// Cases: texts that are read under an alphabet, and the lines that say what came of them.
use alphabets::{Alphabet, Numbered};
use patterns::pattern::Pattern;
use patterns::refusal::Fault;
use std::io;

// The text of aa|b, a being letter 0 of two and b letter 1.
pub const SMALL: &[u8] = b"pattern,1,2,5\nleaf,0\nleaf,0\nseq,0\nleaf,1\nalt,0\n";

// A text with its label.
pub type Row = (&'static str, &'static [u8]);

// Where texts are read: under one alphabet, with a printed line for each.
#[derive(Clone, Copy)]
pub(crate) struct Bench<'a, A> {
    pub rt: &'a HostRuntime,
    pub alphabet: &'a A,
}

impl<A: Alphabet> Bench<'_, A> {
    // Prints a line for each text.
    pub(crate) fn run_all(&self, rows: &[Row]) -> anyhow::Result<()> {
        for (label, text) in rows {
            self.run(label, text)?;
        }
        Ok(())
    }

    // Reads the text into a pattern that another text was read into before, and prints what came of
    // it.
    pub(crate) fn run(&self, label: &str, text: &[u8]) -> anyhow::Result<()> {
        let heap = self.rt.alloc();
        let mut pattern = Pattern::blank(heap);
        // what can't be read for want of memory leaves the pattern blank, and the case goes on
        let _ = pattern.read(heap, &Numbered::new(2)?, SMALL);
        match pattern.read(heap, self.alphabet, text) {
            Ok(()) => self.print_read(label, &pattern)?,
            Err(fault) => self.print_refused(label, fault, &pattern)?,
        }
        Ok(())
    }

    // The line of a text that was read.
    fn print_read(&self, label: &str, pattern: &Pattern) -> io::Result<()> {
        let n = pattern.letters();
        println!(self.rt; "{label}: read with n = {n}")
    }

    // The line of a text that was refused.
    fn print_refused(&self, label: &str, fault: Fault, pattern: &Pattern) -> io::Result<()> {
        let number = fault.why.number();
        let line = fault.line;
        let left = if is_blank(pattern) {
            "blank"
        } else {
            "not blank"
        };
        println!(self.rt; "{label}: refused {number} at line {line}, {left}")
    }
}

// Whether the pattern has no letters, no letter leads on from its start, and its start is no end.
fn is_blank(pattern: &Pattern) -> bool {
    let start = Pattern::start();
    (0..=u8::MAX).all(|letter| pattern.take(start, letter).is_empty())
        && pattern.letters() == 0
        && !pattern.ends(start)
}
