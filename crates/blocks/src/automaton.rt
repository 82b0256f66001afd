// What a search and a check need to know of a kind of state.
ghost use Rattle.std.specs.Prelude.{◌≡◌, ◌<◌, Decides};
ghost use Rattle.blocks.specs.Moves.{Moves, Fair};

/// A kind of state: where it starts, where a letter leads, and which states are the same. `moves` is
/// what a kind means, and `fair` that there are at most 16 letters and that sameness is an equivalence
/// which every letter keeps: it stands above the functions, so that a caller's clause can name it. Each
/// kind shows that its calls answer so.
pub trait Automaton {
    type State: Drop;

    ghost moves: { Self → Moves Self.State };

    ghost fair: { (m : Self) → Fair (moves m) };

    /// How many letters there are, at most 16.
    fn letters(&self) -> u8
        ensures { result ≡ (moves self.now).letters };

    /// Where it starts.
    fn start(&self) -> Self::State
        ensures { (moves self.now).alike result (moves self.now).start };

    /// Where a letter leads.
    fn step(&self, state: &Self::State, letter: u8) -> Self::State
        ensures { letter < (moves self.now).letters → (moves self.now).alike result ((moves self.now).step state.now letter) };

    /// Whether two states are the same.
    fn same(&self, a: &Self::State, b: &Self::State) -> bool
        ensures { Decides result ((moves self.now).alike a.now b.now) };
}
