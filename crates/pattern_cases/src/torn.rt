// The first bytes of a good text: only the whole of it is read.
use crate::case::{Bench, SMALL};
use alphabets::Numbered;

pub(crate) fn run(two: &Bench<'_, Numbered>) -> anyhow::Result<()> {
    run_torn(two, SMALL)
}

// Prints a line for each length, from none of the text to the whole.
fn run_torn(two: &Bench<'_, Numbered>, text: &[u8]) -> anyhow::Result<()> {
    for len in 0..=text.len() {
        let label = format!(in two.rt.alloc(); "torn after {len} bytes")?;
        two.run(label.as_str(), &text[..len])?;
    }
    Ok(())
}
