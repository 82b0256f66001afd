// One case: a dial under the name that it is printed with.
use crate::dial::Dial;
use blocks::{Row, SearchRefusal, is_exact, search};
use std::io;

#[derive(Clone, Copy, PartialEq, Eq, Debug)]
pub(crate) struct Case<'a> {
    name: &'a str,
    dial: Dial,
}

impl<'a> Case<'a> {
    pub(crate) fn new(name: &'a str, dial: Dial) -> Self {
        Case { name, dial }
    }

    // What the check says of the rows.
    pub(crate) fn check(&self, rt: &HostRuntime, rows: &[Row<u32>]) -> io::Result<()> {
        println!(rt; "{}: {}", self.name, self.answer(rows))
    }

    // What a search finds, and what the check says of that.
    pub(crate) fn search(
        &self,
        rt: &HostRuntime,
        limit: usize,
        rows: &mut Vec<Row<u32>>,
    ) -> io::Result<()> {
        let found = search(&self.dial, limit, rows);
        let name = self.name;
        let count = rows.len();
        match found {
            Ok(()) => println!(rt;
                "{name}, limit {limit}: found {count}, {}",
                self.answer(rows)
            ),
            Err(SearchRefusal::TooMany) => println!(rt;
                "{name}, limit {limit}: too many, {count} left"
            ),
            Err(SearchRefusal::Memory) => println!(rt; "{name}, limit {limit}: no memory"),
        }
    }

    fn answer(&self, rows: &[Row<u32>]) -> &'static str {
        if is_exact(&self.dial, rows) {
            "exact"
        } else {
            "not exact"
        }
    }
}
