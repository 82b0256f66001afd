// Searches with room and at their limits, all into the same rows.
use crate::case::Case;
use crate::dial::Dial;
use blocks::Row;
use std::io;

fn print_row(rt: &HostRuntime, row: &Row<u32>) -> io::Result<()> {
    println!(rt; "{},{},{}", row.state, row.next[0], row.next[1])
}

// The rows themselves, in the order in which they are first met.
pub(crate) fn small(rt: &HostRuntime) -> anyhow::Result<()> {
    let mut rows = Vec::new(rt.alloc());
    Case::new("five hours by 3 and 6", Dial::new(5, 3, 2)).search(rt, 5, &mut rows)?;
    for row in &rows {
        print_row(rt, row)?;
    }
    Ok(())
}

pub(crate) fn at_limits(rt: &HostRuntime) -> anyhow::Result<()> {
    let mut rows = Vec::new(rt.alloc());
    let five = Case::new("five hours", Dial::new(5, 1, 2));
    five.search(rt, 1000, &mut rows)?;
    five.search(rt, 5, &mut rows)?;
    five.search(rt, 4, &mut rows)?;
    five.search(rt, 0, &mut rows)?;
    let still = Case::new("no letters", Dial::new(5, 1, 0));
    still.search(rt, 1, &mut rows)?;
    still.search(rt, 0, &mut rows)?;
    let most = Case::new("256 hours", Dial::new(256, 1, 1));
    most.search(rt, 256, &mut rows)?;
    most.search(rt, 255, &mut rows)?;
    let past = Case::new("257 hours", Dial::new(257, 1, 1));
    past.search(rt, 256, &mut rows)?;
    past.search(rt, 257, &mut rows)?;
    Case::new("17 hours, 16 letters", Dial::new(17, 1, 16)).search(rt, 17, &mut rows)?;
    Ok(())
}
