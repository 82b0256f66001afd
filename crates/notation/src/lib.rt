// The written form of patterns of bus events: a first line `pattern,1,n,m` and then a line `kind,code` for each node.
#![tactic(auto)]

mod entries;
mod headers;
mod heads;
mod kinds;
#[cfg(test)]
mod tests;

pub use entries::Entry;
pub use headers::header;
pub use heads::Header;
pub use kinds::Kind;
