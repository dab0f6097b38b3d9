//! The words of the program, and the file that they name.
ghost use Rattle.std.specs.Prelude.{◌≡◌, ℕ, ◌≤◌, List, length, map, string_bytes, IfOk, IfErr, IfSome, MatchOption, Some, None, ◌⊎◌};
ghost use Rattle.hept_io.specs.Outside.{HasFile};
ghost use Rattle.run_checks.specs.Stops.{IsNotRead};
ghost use Rattle.run_messages.specs.declared.end.FileFault.{FileFault as AnyFileFault};
ghost use Rattle.run_checks.specs.Words.{file_of};

use hept_io::{Store, StoreFault};
use run_messages::{End, FileFault};
use std::alloc::Global;

/// The file that the words name, where they are one word that isn't empty and doesn't begin with `-`.
pub fn file_of(words: &[String]) -> Option<&str>
    ensures { MatchOption result (file_of (map string_bytes words.now) ≡ None) (λ name. file_of (map string_bytes words.now) ≡ Some name.now) }
{
    match words {
        [word] => match word.as_bytes() {
            [] | [b'-', ..] => None,
            _ => Some(word.as_str()),
        },
        _ => None,
    }
}

/// The bytes of a file.
pub fn read_text<F: Store>(alloc: Global, name: &str, files: &mut F) -> Result<Vec<u8>, End>
    ensures read { IfOk result (λ text. IfSome (F.files files.old) (λ map. HasFile map name.now text.items)) }
    ensures bound { IfOk result (λ text. length text.items ≤ 1048576) }
    ensures ends { IfErr result (λ e. (e ≡ End.Memory) ⊎ ((f : AnyFileFault) × (e ≡ End.File f)
        × IsNotRead f (F.files files.old) (F.faults files.old) (F.faults files.new) name.now)) }
    ensures kept { F.files files.new ≡ F.files files.old }
    ensures count { F.faults files.old ≤ F.faults files.new }
{
    let mut text = Vec::new(alloc);
    match files.read_file(name, &mut text) {
        Ok(()) => Ok(text),
        Err(StoreFault::Memory) => Err(End::Memory),
        Err(StoreFault::Failed) => Err(End::File(FileFault::Failed)),
        Err(StoreFault::TooLarge) => Err(End::File(FileFault::TooLarge)),
        Err(StoreFault::Missing) => Err(End::File(FileFault::Missing)),
    }
}
