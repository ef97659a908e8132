// The driver that grows whole trees: a line of standard input names a plan; its run is printed step by step, then the tally.
#![tactic(auto)]

ghost use Rattle.std.specs.Prelude.{true, ◌≡◌};
ghost use Rattle.plan.specs.Plan.{fits};

use arrayvec::ArrayString;
use plan::Plan;
use std::io::{self, Write};
use tables::Tables;

// Grows the tree of a plan and prints its run.
fn print_run<W: Write>(output: &mut W, p: Plan) -> io::Result<()>
    requires { fits p ≡ true }
{
    let mut t = [0; Tables::BYTES];
    let mut log = [0; run::LOG];
    let tally = run::grow(&mut t, &mut log, p);
    let mut text = ArrayString::<65536>::new();
    lines::put_steps(&mut text, &log, tally.steps as usize);
    output.write_all(text.as_str().as_bytes())?;
    lines::say_end(output, tally.steps, tally.kills, tally.zeros)
}

// A line that names a plan has at most 13 bytes: 14 tell as much as all.
fn main(rt: HostRuntime) -> io::Result<()> {
    let mut line = [0; 14];
    let n = lines::read_line(&mut rt.stdin(), &mut line)?;
    let Some(p) = plan::read_plan(&line[..n]) else {
        return rt.stdout().write_all(b"refused\n");
    };
    print_run(&mut rt.stdout(), p)
}
