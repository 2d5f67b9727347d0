// An example for those who use the rack: a caller of it, and a judge and a preference of one's own.
#![tactic(auto)]

mod caller;
mod last_fit;
mod own;
mod period_first;
mod sizes;

use std::io::{BufWriter, Write};

fn main(rt: HostRuntime) -> anyhow::Result<()> {
    let mut out = BufWriter::new(rt.alloc(), rt.stdout())?;
    caller::call(&mut out)?;
    own::call(&mut out)?;
    sizes::tell(&mut out)?;
    out.flush()?;
    Ok(())
}
