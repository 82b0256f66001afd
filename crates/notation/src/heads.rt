/// What the first line says: how many letters and how many nodes the pattern has.
#[derive(Clone, Copy, PartialEq, Eq, Debug)]
pub struct Header {
    pub letters: u64,
    pub nodes: u64,
}
