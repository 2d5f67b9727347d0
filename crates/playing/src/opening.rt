// The beginning: the file is read, and its rack is made.
ghost use Rattle.playing.specs.Beginning.{Begins};

use crate::fault::PlayerFault;
use judges::Points;
use preferences::Policy;
use rack::Rack;
use rackfile::{RackFile, Records, read_file};

// A rack with the points judge and the file's policy, and the records that are to be played on it.
#[derive(Drop)]
pub(crate) struct Play<'a> {
    pub(crate) rack: Rack<Points, Policy>,
    pub(crate) records: Records<'a>,
}

// Reads the file and makes its rack.
pub(crate) fn begin(input: &[u8]) -> Result<Play<'_>, PlayerFault>
    ensures { Begins input.now result }
{
    let RackFile {
        policy,
        processors,
        records,
    } = read_file(input)?;
    // No rack is refused here, for the number of processors was looked at in reading.
    let rack = Rack::make(usize::from(processors), Points, policy).unwrap();
    Ok(Play { rack, records })
}
