// What is wrong with a file: a fault of each reading layer, held by the layer above.
ghost use Rattle.std.specs.Prelude.{◌≡◌, Some};
ghost use Rattle.rackfile.specs.Faults.{layer_of, number_of, place_of, layer_name, fault_text};
ghost use Rattle.rackfile.specs.declared.fault.RecordFault.TheVariants.{Bytes};
ghost use Rattle.rackfile.specs.declared.fault.FileFault.TheVariants.{Record};

use std::error::Error;
use std::fmt;

/// The three reading layers.
#[derive(Clone, Copy, Debug, PartialEq, Eq)]
pub enum Layer {
    Bytes,
    Record,
    File,
}

/// What is wrong with the bytes, whatever they stand for.
#[derive(Clone, Copy, Debug, PartialEq, Eq)]
pub enum BytesFault {
    /// The input is longer than 65,536 bytes.
    TooLong,
    /// A field is cut short at the input's end.
    Cut { place: usize },
    /// Something follows the last record.
    Trailing { place: usize },
}

/// What is wrong with a record.
#[derive(Clone, Copy, Debug, PartialEq, Eq)]
pub enum RecordFault {
    Bytes(BytesFault),
    /// The tag is neither A nor W.
    Tag { place: usize },
    /// The label's length is not from 1 to 16, or one of its bytes is not from 21 to 7E (hexadecimal).
    Label { place: usize },
}

/// What is wrong with a file.
#[derive(Clone, Copy, Debug, PartialEq, Eq)]
pub enum FileFault {
    Record(RecordFault),
    /// The file does not begin with the letters RAK.
    Mark,
    /// The version is not 1.
    Version,
    /// The policy's letter is none of F, B and W.
    Policy,
    /// The number of processors is not from 1 to 16.
    Processors,
}

impl From<BytesFault> for RecordFault {
    ghost from_gives = { λ e r. r ≡ Bytes e };

    fn from(e: BytesFault) -> RecordFault {
        RecordFault::Bytes(e)
    }
}

impl From<RecordFault> for FileFault {
    ghost from_gives = { λ e r. r ≡ Record e };

    fn from(e: RecordFault) -> FileFault {
        FileFault::Record(e)
    }
}

impl From<BytesFault> for FileFault {
    ghost from_gives = { λ e r. r ≡ Record (Bytes e) };

    fn from(e: BytesFault) -> FileFault {
        FileFault::Record(RecordFault::Bytes(e))
    }
}

// Each by a match: the variants carry places and lower faults, so their numbers are no discriminants.
impl FileFault {
    /// The layer that found the fault.
    pub fn layer(&self) -> Layer
        ensures { result ≡ layer_of self.now }
    {
        match *self {
            FileFault::Record(RecordFault::Bytes(_)) => Layer::Bytes,
            FileFault::Record(RecordFault::Tag { .. }) => Layer::Record,
            FileFault::Record(RecordFault::Label { .. }) => Layer::Record,
            _ => Layer::File,
        }
    }

    /// Its number.
    pub fn number(&self) -> u32
        ensures { result ≡ number_of self.now }
    {
        match *self {
            FileFault::Record(RecordFault::Bytes(BytesFault::TooLong)) => 11,
            FileFault::Record(RecordFault::Bytes(BytesFault::Cut { .. })) => 12,
            FileFault::Record(RecordFault::Bytes(BytesFault::Trailing { .. })) => 17,
            FileFault::Record(RecordFault::Tag { .. }) => 15,
            FileFault::Record(RecordFault::Label { .. }) => 16,
            FileFault::Mark => 13,
            FileFault::Version => 13,
            FileFault::Policy => 14,
            FileFault::Processors => 14,
        }
    }

    /// Its place in the input.
    pub fn place(&self) -> usize
        ensures { result ≡ place_of self.now }
    {
        match *self {
            FileFault::Record(RecordFault::Bytes(BytesFault::TooLong)) => 65536,
            FileFault::Record(RecordFault::Bytes(BytesFault::Cut { place })) => place,
            FileFault::Record(RecordFault::Bytes(BytesFault::Trailing { place })) => place,
            FileFault::Record(RecordFault::Tag { place }) => place,
            FileFault::Record(RecordFault::Label { place }) => place,
            FileFault::Mark => 0,
            FileFault::Version => 3,
            FileFault::Policy => 5,
            FileFault::Processors => 6,
        }
    }
}

impl fmt::Display for Layer {
    ghost output = { λ l. Some (layer_name l) };

    fn fmt<W: fmt::Write>(&self, f: &mut fmt::Formatter<W>) -> fmt::Result {
        match self {
            Layer::Bytes => write!(f, "bytes"),
            Layer::Record => write!(f, "record"),
            Layer::File => write!(f, "file"),
        }
    }
}

/// Its layer, its number and its place: `LAYER NUMBER PLACE`.
impl fmt::Display for FileFault {
    ghost output = { λ e. Some (fault_text e) };

    fn fmt<W: fmt::Write>(&self, f: &mut fmt::Formatter<W>) -> fmt::Result {
        let layer = self.layer();
        let number = self.number();
        let place = self.place();
        write!(f, "{layer} {number} {place}")
    }
}

impl Error for FileFault {}
