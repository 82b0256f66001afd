// Regular expressions, their sessions and their places: two laws, each the contract of a function.
#![tactic(auto)]

ghost use Rattle.expressions.specs.Laws.{DerivativeFollowsSessions, PlacesKnowSessions};

/// Following the places letter by letter tells what may still come.
pub fn places_know_sessions()
    ensures { PlacesKnowSessions }
{}

/// The derivative by a word has the sessions that go on from that word.
pub fn derivative_follows_sessions()
    ensures { DerivativeFollowsSessions }
{}
