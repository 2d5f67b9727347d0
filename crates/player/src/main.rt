// The player: a rack file on standard input, a line a record on standard output.
#![tactic(auto)]

use playing::{Asked, carry_out};
use std::env::Env;
use std::io::BufWriter;

// What the first argument asks for: where there is none, or one too long to ask for anything, to play.
fn asked<E: Env>(env: &E) -> Asked {
    let mut argument = [0; 16];
    match env.arg(1, &mut argument) {
        Ok(length) => Asked::by(&argument[..length]),
        Err(_) => Asked::Play,
    }
}

fn main(rt: HostRuntime) -> anyhow::Result<()> {
    let mut out = BufWriter::new(rt.alloc(), rt.stdout())?;
    carry_out(rt.alloc(), asked(&rt), &mut rt.stdin(), &mut out)?;
    Ok(())
}

#[cfg(test)]
mod tests;
