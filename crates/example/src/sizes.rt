// How many bytes a rack and a sheet have.
use judges::Points;
use preferences::Policy;
use rack::Rack;
use std::io::{self, Write};
use std::mem::size_of;

/// The bytes of a rack, and of a sheet for sixteen processors.
pub(crate) fn tell<W: Write>(out: &mut W) -> io::Result<()> {
    let rack = size_of::<Rack<Points, Policy>>();
    let sheet = size_of::<[u32; 16]>();
    writeln!(out, "bytes of a rack: {rack}, of a sheet: {sheet}")
}
