// Reads frames from standard input, and prints what each of them opens to.
#![tactic(auto)]

use report::report_from;
use std::io;

fn main(rt: HostRuntime) -> io::Result<()> {
    let text = report_from(rt.alloc(), rt.stdin())?;
    print!(rt; "{text}")
}
