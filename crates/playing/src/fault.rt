// What goes wrong while a file is played.
ghost use Rattle.std.specs.Prelude.{◌≡◌};
ghost use Rattle.playing.specs.declared.fault.PlayerFault.TheVariants.{Unread, Turned};

use rackfile::FileFault;
use seating::Refused;

/// The rack's refusal of a record, with the record's index.
#[derive(Clone, Copy, Debug, PartialEq, Eq)]
pub struct RefusedRecord {
    pub index: u32,
    pub refusal: Refused,
}

/// The player's own fault: the file cannot be read, or the rack has refused a record.
#[derive(Clone, Copy, Debug, PartialEq, Eq)]
pub enum PlayerFault {
    Unread(FileFault),
    Turned(RefusedRecord),
}

impl From<FileFault> for PlayerFault {
    ghost from_gives = { λ e r. r ≡ Unread e };

    fn from(e: FileFault) -> PlayerFault {
        PlayerFault::Unread(e)
    }
}

impl From<RefusedRecord> for PlayerFault {
    ghost from_gives = { λ e r. r ≡ Turned e };

    fn from(e: RefusedRecord) -> PlayerFault {
        PlayerFault::Turned(e)
    }
}
