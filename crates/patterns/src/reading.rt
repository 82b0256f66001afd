// Reading a pattern from its text.
ghost use Rattle.std.specs.Prelude.{◌≡◌, ℕ, ◌^◌, ◌<◌, ◌≤◌, [], vec_len};
ghost use Rattle.patterns.specs.Determined.{Only};
ghost use Rattle.patterns.specs.Reading.{Parses, Reads};
ghost use Rattle.patterns.specs.Reads.{Opens, NodeFor, Adds, Draws, line_of};
ghost use Rattle.notation.specs.declared.kinds.Kind.TheVariants.{Leaf};
ghost use Rattle.texts.specs.Lines.{rest};

use crate::draft::Draft;
use crate::node::Node;
use crate::pattern::{Pattern, finish};
use crate::refusal::{Fault, PatternRefusal};
use alphabets::{Alphabet, letters_of};
use notation::{Entry, Kind, header};
use std::alloc::Global;
use texts::Cursor;

// A text has at most this many bytes.
const MOST_BYTES: usize = 4_096;

// A pattern has at most this many nodes.
const MOST_NODES: u64 = 127;

// The first line: how many nodes follow.
fn opening(cursor: &mut Cursor<'_>, letters: u8) -> Result<usize, PatternRefusal>
    ensures { Opens (rest cursor.old) letters result (rest cursor.new) }
{
    let line = cursor.line().ok_or(PatternRefusal::Header)?;
    let first = header(line).ok_or(PatternRefusal::Header)?;
    if first.letters != u64::from(letters) {
        return Err(PatternRefusal::Letters);
    }
    match first.nodes {
        nodes @ 1..=MOST_NODES => Ok(nodes as usize),
        _ => Err(PatternRefusal::Count),
    }
}

// The node of a line, where its code suits its kind.
fn node_for<A: Alphabet>(alphabet: &A, kind: Kind, code: u32) -> Option<Node>
    ensures { NodeFor (A.meaning alphabet.now) kind code result }
{
    let node = match kind {
        Kind::Never => Node::Never,
        Kind::Empty => Node::Empty,
        Kind::Leaf => return leaf_for(alphabet, code),
        Kind::Seq => Node::Seq,
        Kind::Alt => Node::Alt,
        Kind::Star => Node::Star,
    };
    (code == 0).then_some(node)
}

// The leaf with a code's letters, where the code is valid.
fn leaf_for<A: Alphabet>(alphabet: &A, code: u32) -> Option<Node>
    ensures { NodeFor (A.meaning alphabet.now) Leaf code result }
{
    alphabet
        .valid(code)
        .then(|| Node::Leaf(letters_of(alphabet, code)))
}

// One line more in the draft, which is handed on without a copy since this is inlined.
#[inline(always)]
fn add<A: Alphabet>(
    alphabet: &A,
    kind: Kind,
    code: u32,
    draft: Draft,
) -> Result<Draft, PatternRefusal>
    requires { vec_len draft.stack.holders ≡ (A.meaning alphabet.now).n }
    ensures code { code < 2 ^ 32 }
    ensures adds { Adds (A.meaning alphabet.now) kind code draft result }
{
    let node = node_for(alphabet, kind, code).ok_or(PatternRefusal::Code)?;
    draft.with(node)
}

// The lines of the nodes, `count` of them; the first that breaks a rule decides. The project asks for a
// labelled loop whose value is the refusal (docs/DECISIONS.md, Language forms), and a `for` has no value.
fn body<A: Alphabet>(
    alphabet: &A,
    count: usize,
    cursor: &mut Cursor<'_>,
    mut draft: Draft,
) -> Result<Draft, Fault>
    requires letters { vec_len draft.stack.holders ≡ (A.meaning alphabet.now).n }
    requires none { draft.nodes.items ≡ [] }
    requires few { count ≤ 127 }
    ensures { Draws (A.meaning alphabet.now) (rest cursor.old) count result (rest cursor.new) }
{
    let mut numbers = 2..count + 2;
    'lines: loop {
        let Some(number) = numbers.next() else {
            break 'lines Ok(draft);
        };
        let malformed = Fault {
            why: PatternRefusal::Line,
            line: number,
        };
        let Some(mut line) = cursor.line() else {
            break 'lines Err(malformed);
        };
        let mut read = Entry::Start;
        while let Some(token) = line.field() {
            match read.with(token) {
                Some(more) => read = more,
                None => break 'lines Err(malformed),
            }
        }
        let Entry::Whole(kind, code) = read else {
            break 'lines Err(malformed);
        };
        match add(alphabet, kind, code, draft) {
            Ok(more) => draft = more,
            Err(why) => break 'lines Err(at_line(why, number)),
        }
    }
}

// A refusal at a line; want of memory is at no line.
fn at_line(why: PatternRefusal, line: usize) -> Fault
    ensures why { result.why ≡ why }
    ensures line { result.line ≡ line_of why line }
{
    match why {
        PatternRefusal::Memory => Fault { why, line: 0 },
        _ => Fault { why, line },
    }
}

// A pattern from its text.
fn parse<A: Alphabet>(heap: Global, alphabet: &A, text: &[u8]) -> Result<Pattern, Fault>
    ensures { Parses (A.meaning alphabet.now) text.now result }
{
    if text.len() > MOST_BYTES {
        return Err(Fault {
            why: PatternRefusal::TooLong,
            line: 0,
        });
    }
    let letters = alphabet.letters();
    let mut cursor = Cursor::new(text);
    let count = opening(&mut cursor, letters).map_err(|why| Fault { why, line: 1 })?;
    let draft = body(alphabet, count, &mut cursor, Draft::new(heap, letters)?)?;
    if !cursor.at_end() {
        return Err(Fault {
            why: PatternRefusal::Line,
            line: count + 2,
        });
    }
    finish(draft).map_err(|why| Fault {
        why,
        line: count + 1,
    })
}

impl Pattern {
    /// Reads the pattern of a text; a refusal leaves the blank pattern.
    pub fn read<A: Alphabet>(
        &mut self,
        heap: Global,
        alphabet: &A,
        text: &[u8],
    ) -> Result<(), Fault>
        ensures reads { Reads (A.meaning alphabet.now) text.now result self.new }
        ensures only { Only (A.meaning alphabet.now) text.now result }
    {
        *self = Pattern::blank(heap);
        *self = parse(heap, alphabet, text)?;
        Ok(())
    }
}
