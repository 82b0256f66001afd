// Pattern texts, good and bad: one printed line says what reading each of them answers.
#![tactic(auto)]

mod case;
mod firsts;
mod lengths;
mod nodes;
mod others;
mod torn;
mod words;

use alphabets::Numbered;
use case::Bench;

fn main(rt: HostRuntime) -> anyhow::Result<()> {
    run(&rt)
}

// All the cases, in the order of the printed lines.
fn run(rt: &HostRuntime) -> anyhow::Result<()> {
    let alphabet = Numbered::new(2)?;
    let two = Bench {
        rt,
        alphabet: &alphabet,
    };
    firsts::run(&two)?;
    nodes::run(&two)?;
    others::run(rt)?;
    lengths::run(&two)?;
    torn::run(&two)?;
    words::run(&two)
}
