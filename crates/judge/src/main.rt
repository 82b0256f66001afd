// Judges the trace in trace.txt by the procedure in procedure.txt, and prints a line after each event.
#![tactic(auto)]

use alphabets::Service;
use console::{Failure, contents};
use judging::{Verdict, judge};
use patterns::Fault;
use std::io;
use std::process::ExitCode;

const PROCEDURE: &str = "procedure.txt";

const TRACE: &str = "trace.txt";

fn main(rt: HostRuntime) -> ExitCode {
    console::end(&rt, run(&rt))
}

fn run(rt: &HostRuntime) -> Result<(), Failure<Fault>> {
    let procedure = contents(rt, PROCEDURE)?;
    let trace = contents(rt, TRACE)?;
    let verdicts = judge(rt.alloc(), &Service, procedure.as_slice(), trace.as_slice()).map_err(
        |fault| Failure::Refused(PROCEDURE, fault),
    )?;
    for verdict in verdicts.as_slice() {
        print_verdict(rt, verdict).map_err(Failure::Unwritten)?;
    }
    Ok(())
}

// As in `reset,1024,no`.
fn print_verdict(rt: &HostRuntime, verdict: &Verdict) -> io::Result<()> {
    let places = verdict.places.bits;
    let answer = if verdict.session { "yes" } else { "no" };
    rt.write_all(verdict.name)?;
    println!(rt; ",{places},{answer}")
}
