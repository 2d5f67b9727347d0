// What a file is read as.
ghost use Rattle.std.specs.Prelude.{◌≡◌, Some, IfOk, string_bytes};
ghost use Rattle.rackfile.specs.Files.{reading};
ghost use Rattle.console.specs.Files.{file_text, reading_text};

use preferences::Policy;
use rackfile::read_file;
use std::alloc::{AllocError, Global};
use std::fmt;

/// A file in short: `ok POLICY M COUNT`.
#[derive(Clone, Copy)]
struct FileText {
    policy: Policy,
    processors: u8,
    count: usize,
}

impl fmt::Display for FileText {
    ghost output = { λ s. Some (file_text s.policy s.processors s.count) };

    fn fmt<W: fmt::Write>(&self, f: &mut fmt::Formatter<W>) -> fmt::Result {
        let letter = self.policy.letter();
        let processors = self.processors;
        let count = self.count;
        write!(f, "ok {letter} {processors} {count}")
    }
}

/// What the bytes are read as: `ok POLICY M COUNT`, or the fault as `LAYER NUMBER PLACE`.
pub fn read_answer(alloc: Global, input: &[u8]) -> Result<String, AllocError>
    ensures { IfOk result (λ s. string_bytes s ≡ reading_text (reading input.now)) }
{
    match read_file(input) {
        Ok(file) => {
            let text = FileText {
                policy: file.policy,
                processors: file.processors,
                count: file.records.len(),
            };
            text.to_string(alloc)
        }
        Err(fault) => fault.to_string(alloc),
    }
}
