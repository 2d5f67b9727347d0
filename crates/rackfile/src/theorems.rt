// What reading and writing a file have been proved to mean.
ghost use Rattle.rackfile.specs.Faults.{FaultsDiffer};
ghost use Rattle.rackfile.specs.Exact.{ReadsWhatStands, OneFile, NotBoth, LabelsAreThere};
ghost use Rattle.rackfile.specs.FaultLaws.{FileReadsBack, FaultsStay, FaultsShow, FaultsTell, TrailingExactly, CutExactly, TooLongExactly};

/// No two faults have the same number and place.
pub fn faults_differ()
    ensures { FaultsDiffer }
{}

/// Bytes are read as a file exactly when they stand for it.
pub fn reads_what_stands()
    ensures { ReadsWhatStands }
{}

/// No bytes stand for two files.
#[tactic(auto, using(crate::proofs::Standing::one_file))]
pub fn one_file()
    ensures { OneFile }
{}

/// None stand for a file and have a fault.
#[tactic(auto, using(crate::proofs::Standing::not_both))]
pub fn not_both()
    ensures { NotBoth }
{}

/// The bytes of every file within the limits, each label at its place, are bytes, and reading them gives that file.
pub fn file_reads_back()
    ensures { FileReadsBack }
{}

/// A record's label is that part of the input.
#[tactic(auto, using(crate::proofs::Labels::labels_are_there))]
pub fn labels_are_there()
    ensures { LabelsAreThere }
{}

/// A fault of 13 to 17 stays the same whatever bytes follow, up to 65,536 in all.
pub fn faults_stay()
    ensures { FaultsStay }
{}

/// A fault of 13 to 16 is there as soon as the field that shows it is whole, and before that 12.
#[tactic(auto, using(crate::proofs::FaultLaws::faults_show))]
pub fn faults_show()
    ensures { FaultsShow }
{}

/// What stands at the place of a fault of 13 to 16 is wrong, and all before it is right.
#[tactic(auto, using(crate::proofs::Telling::faults_tell))]
pub fn faults_tell()
    ensures { FaultsTell }
{}

/// 17 is exactly where bytes follow a file, up to 65,536 in all.
pub fn trailing_behind_file()
    ensures { TrailingExactly }
{}

/// 12 is exactly where an input of at most 65,536 bytes could go on to a file, or to a fault that a field shows, and does not say so yet.
#[tactic(auto, using(crate::proofs::FaultLaws::cut_exactly))]
pub fn cut_exactly()
    ensures { CutExactly }
{}

/// 11 is exactly above 65,536 bytes.
#[tactic(auto, using(crate::proofs::FaultLaws::too_long_exactly))]
pub fn too_long_exactly()
    ensures { TooLongExactly }
{}
