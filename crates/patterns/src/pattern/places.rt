// Place sets, letter by letter.
ghost use Rattle.std.specs.Prelude.{◌≡◌, ℕ, ◌^◌, List, ◌++◌, vec_len, Decides};
ghost use Rattle.expressions.specs.Expr.{derives};
ghost use Rattle.expressions.specs.Places.{Takes, Ends, Leads};
ghost use Rattle.expressions.specs.Sessions.{Session};
ghost use Rattle.expressions.specs.Tables.{followers, united};
ghost use Rattle.patterns.specs.Patterns.{expr_of};

use crate::pattern::Pattern;
use bitsets::SmallSet;

impl Pattern {
    /// How many letters the pattern is over; 0 for the blank pattern alone.
    pub fn letters(&self) -> u8
        ensures { result ≡ self.now.letters }
    {
        self.letters
    }

    /// The start: place 0 alone.
    pub fn start() -> SmallSet
        ensures { result.bits ≡ 1 }
    {
        SmallSet::only(0)
    }

    /// The places that follow one of these and whose leaf holds the letter.
    pub fn take(&self, places: SmallSet, letter: u8) -> SmallSet
        ensures { Takes (expr_of self.now) places.bits letter result.bits }
    {
        let Some(carriers) = self.carriers.get(letter as usize) else {
            return SmallSet::empty();
        };
        self.following(places).common(*carriers)
    }

    // The places that follow one of these.
    fn following(&self, places: SmallSet) -> SmallSet
        ensures { result.bits ≡ united (followers (expr_of self.now)) places.bits (vec_len self.now.successors) }
    {
        let mut all = SmallSet::empty();
        for (p, next) in self.successors.iter().enumerate() {
            if places.holds(p as u8) {
                all = all.union(*next);
            }
        }
        all
    }

    /// Whether a session can end at one of these places. The places that a word leads to from the
    /// start tell whether what came after any first part of it is a session of the pattern's
    /// derivative by that part, and so whether the whole word is a session of the pattern.
    pub fn ends(&self, places: SmallSet) -> bool
        ensures ends { Decides result (Ends (expr_of self.now) places.bits) }
        ensures sessions { (w v : List ℕ) (s : ℕ) → Leads (expr_of self.now) 1 w s → Leads (expr_of self.now) s v places.bits → Decides result (Session (derives w (expr_of self.now)) v) }
        ensures whole { (w v : List ℕ) (s : ℕ) → Leads (expr_of self.now) 1 w s → Leads (expr_of self.now) s v places.bits → Decides result (Session (expr_of self.now) (w ++ v)) }
    {
        !places.common(self.finals).is_empty()
    }
}
