// The rack file: bytes, records and the file, three reading layers.
#![tactic(auto)]

mod bytes;
mod fault;
mod file;
mod reading;
mod record;
mod records;
mod theorems;

pub use fault::{BytesFault, FileFault, Layer, RecordFault};
pub use file::{RackFile, read_file};
pub use record::Record;
pub use records::Records;
pub use theorems::{
    cut_exactly, faults_differ, faults_show, faults_stay, faults_tell, file_reads_back,
    labels_are_there, not_both, one_file, reads_what_stands, too_long_exactly,
    trailing_behind_file,
};
