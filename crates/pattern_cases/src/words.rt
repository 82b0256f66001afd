// The words that a pattern read accepts, letter by letter.
use crate::case::{Bench, Row, SMALL};
use alphabets::Numbered;
use patterns::pattern::Pattern;

// All words over two letters, up to the length 3.
const WORDS: [&str; 15] = [
    "", "a", "b", "aa", "ab", "ba", "bb", "aaa", "aab", "aba", "abb", "baa", "bab", "bba", "bbb",
];

// Patterns over a and b, the letters 0 and 1.
const PATTERNS: [Row; 5] = [
    ("aa|b", SMALL),
    ("never", b"pattern,1,2,1\nnever,0\n"),
    ("empty", b"pattern,1,2,1\nempty,0\n"),
    ("(ab)*", b"pattern,1,2,4\nleaf,0\nleaf,1\nseq,0\nstar,0\n"),
    ("a(b*)", b"pattern,1,2,4\nleaf,0\nleaf,1\nstar,0\nseq,0\n"),
];

// Prints the words that each pattern accepts.
pub(crate) fn run(two: &Bench<'_, Numbered>) -> anyhow::Result<()> {
    for (label, text) in PATTERNS.iter() {
        let mut pattern = Pattern::blank(two.rt.alloc());
        // a text that can't be read leaves the pattern blank, which accepts no word
        let _ = pattern.read(two.rt.alloc(), two.alphabet, text);
        print_words(two.rt, label, &pattern)?;
    }
    Ok(())
}

// Prints a line for each word that the pattern accepts.
fn print_words(rt: &HostRuntime, label: &str, pattern: &Pattern) -> anyhow::Result<()> {
    for word in WORDS.iter() {
        if accepts(pattern, word) {
            println!(rt; "{label} accepts \"{word}\"")?;
        }
    }
    Ok(())
}

// Whether the places that the word leads to from the start hold an end.
fn accepts(pattern: &Pattern, word: &str) -> bool {
    let places = word.bytes().fold(Pattern::start(), |places, byte| {
        pattern.take(places, byte.wrapping_sub(b'a'))
    });
    pattern.ends(places)
}
