// Blocks handed to the check: exact ones, and ones that break one rule alone.
use crate::case::Case;
use crate::dial::Dial;
use blocks::Row;

// A row with two next rows.
fn row((state, one, two): (u32, u8, u8)) -> Row<u32> {
    let mut next = [0; 16];
    next[0] = one;
    next[1] = two;
    Row { state, next }
}

pub(crate) fn exact(rt: &HostRuntime) -> anyhow::Result<()> {
    let dial = Dial::new(5, 1, 2);
    let plain = [(0, 1, 2), (1, 2, 3), (2, 3, 4), (3, 4, 0), (4, 0, 1)].map(row);
    Case::new("in the order first met", dial).check(rt, &plain)?;
    let other = [(0, 2, 1), (2, 3, 4), (1, 1, 3), (3, 4, 0), (4, 0, 2)].map(row);
    Case::new("in another order", dial).check(rt, &other)?;
    let round = [(10, 1, 2), (6, 2, 3), (2, 3, 4), (8, 4, 0), (4, 0, 1)].map(row);
    Case::new("the same hours, counted otherwise", dial).check(rt, &round)?;
    let half = [(0, 1, 77), (2, 2, 0), (4, 0, 99)].map(row);
    Case::new("past the letters anything may stand", Dial::new(6, 2, 1)).check(rt, &half)?;
    Case::new("no letters", Dial::new(5, 1, 0)).check(rt, &[row((0, 9, 9))])?;
    Ok(())
}

pub(crate) fn broken(rt: &HostRuntime) -> anyhow::Result<()> {
    let dial = Dial::new(5, 1, 2);
    Case::new("no rows", dial).check(rt, &[])?;
    let turned = [(1, 1, 2), (2, 2, 3), (3, 3, 4), (4, 4, 0), (0, 0, 1)].map(row);
    Case::new("row 0 is not the start", dial).check(rt, &turned)?;
    let twice = [
        (0, 1, 2),
        (1, 2, 3),
        (2, 3, 4),
        (3, 4, 5),
        (4, 0, 1),
        (5, 1, 2),
    ]
    .map(row);
    Case::new("two rows have one state", dial).check(rt, &twice)?;
    let wrong = [(0, 1, 2), (1, 2, 3), (2, 3, 3), (3, 4, 0), (4, 0, 1)].map(row);
    Case::new("a next row has another state", dial).check(rt, &wrong)?;
    let last = [(0, 1, 2), (1, 2, 3), (2, 3, 4), (3, 4, 0), (4, 0, 0)].map(row);
    Case::new("only the last next row has another state", dial).check(rt, &last)?;
    let outside = [(0, 1, 2), (1, 2, 3), (2, 3, 4), (3, 4, 0), (4, 5, 1)].map(row);
    Case::new("a next row is not there", dial).check(rt, &outside)?;
    let late = [(0, 2, 3), (4, 0, 2), (1, 3, 4), (2, 4, 1), (3, 1, 0)].map(row);
    Case::new("a row comes next only after later rows", dial).check(rt, &late)?;
    let apart = [
        (0, 1, 0),
        (2, 2, 0),
        (4, 0, 0),
        (1, 4, 0),
        (3, 5, 0),
        (5, 3, 0),
    ]
    .map(row);
    Case::new("rows that the start never reaches", Dial::new(6, 2, 1)).check(rt, &apart)?;
    Ok(())
}

// As many rows as there are row numbers, and more.
pub(crate) fn long(rt: &HostRuntime) -> anyhow::Result<()> {
    counted(rt, "256 rows", 256)?;
    counted(rt, "257 rows", 257)?;
    counted(rt, "300 rows", 300)
}

// A row for each hour, the hand moving on by one.
fn counted(rt: &HostRuntime, name: &str, hours: u16) -> anyhow::Result<()> {
    let rows: Vec<Row<u32>> = (0..u32::from(hours))
        .map(|hour| row((hour, ((hour + 1) & 255) as u8, 0)))
        .collect(rt.alloc())?;
    Case::new(name, Dial::new(hours, 1, 1)).check(rt, &rows)?;
    Ok(())
}
