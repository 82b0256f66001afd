// Blocks of rows, exact and not, and searches at their limits: a printed line for each case.
#![tactic(auto)]

mod case;
mod checks;
mod dial;
mod searches;

fn main(rt: HostRuntime) -> anyhow::Result<()> {
    run(&rt)
}

// All the cases, in the order of the printed lines.
fn run(rt: &HostRuntime) -> anyhow::Result<()> {
    checks::exact(rt)?;
    checks::broken(rt)?;
    checks::long(rt)?;
    searches::small(rt)?;
    searches::at_limits(rt)
}
