use bitsets::SmallSet;

/// What is known after an event of a trace.
#[derive(Clone, Copy, PartialEq, Eq, Debug)]
pub struct Verdict<'t> {
    /// The event's name, as it stands in the trace.
    pub name: &'t [u8],
    /// The places that the events so far lead to.
    pub places: SmallSet,
    /// Whether the events so far are a session of the procedure.
    pub session: bool,
}
