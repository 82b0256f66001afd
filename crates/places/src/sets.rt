// The place sets of a pattern as an automaton.
ghost use Rattle.patterns.specs.Patterns.{expr_of};
ghost use Rattle.places.specs.Places.{place_fair, place_moves};

use bitsets::SmallSet;
use blocks::Automaton;
use patterns::Pattern;

/// The place sets of a pattern: the start is place 0 alone, and a letter leads from some places to
/// those that follow one of them and whose leaf holds it.
#[derive(Clone, Copy, PartialEq, Eq, Debug)]
pub struct PlaceSets<'p> {
    pub pattern: &'p Pattern,
}

impl<'p> Automaton for PlaceSets<'p> {
    type State = SmallSet;

    ghost moves = { λ s. place_moves (expr_of s.pattern.now) s.pattern.now.letters };

    ghost fair = { λ s. place_fair (expr_of s.pattern.now) s.pattern.now.letters s.pattern.now.few };

    fn letters(&self) -> u8 {
        self.pattern.letters()
    }

    fn start(&self) -> SmallSet {
        Pattern::start()
    }

    fn step(&self, state: &SmallSet, letter: u8) -> SmallSet {
        self.pattern.take(*state, letter)
    }

    fn same(&self, a: &SmallSet, b: &SmallSet) -> bool {
        a == b
    }
}
