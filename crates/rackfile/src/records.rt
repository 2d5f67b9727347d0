// The records of a file, judged once and then taken off one at a time.
ghost use Rattle.std.specs.Prelude.{◌≡◌, length};
ghost use Rattle.rackfile.specs.Reading.{Reads};
ghost use Rattle.rackfile.specs.Files.{read_records};

use crate::bytes::Reader;
use crate::fault::RecordFault;
use crate::reading::record;
use crate::record::Record;
use std::marker::Model;

/// Records that are known to be readable: the part of the input that they are, and how many there are. Contracts see the list of them.
#[derive(Debug, Drop)]
pub struct Records<'a> {
    front: Reader<'a>,
    count: u16,
}

impl<'a> Model for Records<'a> {
    ghost use Rattle.std.specs.Prelude.{List};
    ghost use Rattle.rackfile.specs.Records.{Seen};

    ghost Value = { List Seen };

    ghost use Rattle.rackfile.specs.Taking.{records_at, Readable};

    ghost view = { λ r. records_at r.front.whole r.count r.front.left.now };

    ghost invariant = { λ r. Readable r.front.whole r.count r.front.left.now };
}

impl<'a> Records<'a> {
    // So many records from the front, which the reader passes over. None is kept: they can be read again.
    pub(crate) fn judge(reader: &mut Reader<'a>, count: u16) -> Result<Records<'a>, RecordFault>
        ensures { Reads (λ records. records) reader.old reader.new result (read_records reader.old.whole count reader.old.left.now) }
    {
        let front = *reader;
        for _ in 0..count {
            record(reader)?;
        }
        Ok(Records { front, count })
    }

    /// How many records are left.
    #[tactic(auto, using(crate::proofs::Sequences::readable_long))]
    pub fn len(&self) -> usize
        ensures { result ≡ length self.now }
    {
        usize::from(self.count)
    }
}

/// The first of those left, and the others stay.
impl<'a> Iterator for Records<'a> {
    ghost use Rattle.std.specs.Iterator.{YieldsFirstBy, item_count};
    ghost use Rattle.rackfile.specs.Records.{seen_as};

    type Item = Record<'a>;

    ghost next_gives = { YieldsFirstBy seen_as (λ records. records) };

    ghost remaining = { item_count (λ records. records) };

    fn next(&mut self) -> Option<Record<'a>> {
        self.count = self.count.checked_sub(1)?;
        // Each was judged, so none is refused here.
        record(&mut self.front).ok()
    }
}
