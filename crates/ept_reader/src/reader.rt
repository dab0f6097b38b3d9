//! Reads the bytes of programs.
ghost use Rattle.std.specs.Prelude.{◌≡◌, ◌≢◌, ◌<◌, ◌-◌, ◌^◌, drop, length, IfErr, IfOk, MatchResult, ◌⊎◌};
ghost use Rattle.ept_reader.specs.Spelling.{IsProgramText, IsRefusalOf, AnswersSo, next_place, of_cut, of_tokens};
ghost use Rattle.hept_ast.specs.declared.tree.Program.{Program as ProgramTree};
ghost use Rattle.ept_reader.specs.declared.reader.ReadFault.{ReadFault as AnyFault};

use ept_grammar::Fault;
use ept_programs::read_tokens;
use ept_tokens::{CutFault, Token, cut};
use hept_ast::{Place, Program};
use std::alloc::Global;

/// Why bytes were not read as a program. Of a token that doesn't fit, `at` is its first byte, and the
/// number of the bytes where the end of the text is what doesn't fit.
#[derive(Clone, Copy, Debug, PartialEq, Eq)]
pub enum ReadFault {
    /// A byte that begins no token.
    BadByte { at: Place },
    /// A comment that is not closed.
    OpenComment { at: Place },
    /// A number above 2147483647.
    NumberTooLarge { at: Place },
    /// A token that no text of a program has here.
    Unexpected { at: Place },
    /// A token that passes the bound on operators or the one on open blocks.
    TooDeep { at: Place },
    Memory,
}

fn of_cut(fault: CutFault) -> ReadFault
    ensures { result ≡ of_cut fault }
{
    match fault {
        CutFault::BadByte { at } => ReadFault::BadByte { at },
        CutFault::OpenComment { at } => ReadFault::OpenComment { at },
        CutFault::NumberTooLarge { at } => ReadFault::NumberTooLarge { at },
        CutFault::Memory => ReadFault::Memory,
    }
}

/// The place of the token with which so many are left, or the end where none is.
fn place_with(end: Place, tokens: &[Token], left: usize) -> Place
    ensures { result ≡ next_place end (drop (length tokens.now - left) tokens.now) }
{
    let passed = tokens.len().saturating_sub(left);
    match tokens[passed..].split_first() {
        None => end,
        Some((token, _)) => token.place,
    }
}

fn of_tokens(end: Place, tokens: &[Token], fault: Fault) -> ReadFault
    ensures { result ≡ of_tokens end tokens.now fault }
{
    match fault {
        Fault::Unexpected(left) => ReadFault::Unexpected {
            at: place_with(end, tokens, left),
        },
        Fault::TooDeep(left) => ReadFault::TooDeep {
            at: place_with(end, tokens, left),
        },
        Fault::Memory => ReadFault::Memory,
    }
}

/// Reads the bytes of a program.
pub fn read_program(alloc: Global, bytes: &[u8]) -> Result<Program, ReadFault>
    // Places are 32-bit numbers.
    requires { length bytes.now < 2 ^ 32 }
    // What is read is what the bytes spell.
    ensures text { IfOk result (λ p. IsProgramText bytes.now p) }
    // They spell nothing else, and a text is read, unless memory runs out.
    ensures only { (p : ProgramTree) → IsProgramText bytes.now p → MatchResult result (λ q. q ≡ p) (λ f. f ≡ ReadFault.Memory) }
    // A refusal stands at its place.
    ensures refused { IfErr result (λ f. (f ≡ ReadFault.Memory) ⊎ IsRefusalOf bytes.now f) }
    // What stands there is refused so, unless memory runs out.
    ensures exactly { (f : AnyFault) → IsRefusalOf bytes.now f → AnswersSo f result }
{
    let tokens = match cut(alloc, bytes) {
        Ok(tokens) => tokens,
        Err(fault) => return Err(of_cut(fault)),
    };
    let end = Place(bytes.len() as u32);
    match read_tokens(alloc, tokens.as_slice()) {
        Ok(program) => Ok(program),
        Err(fault) => Err(of_tokens(end, tokens.as_slice(), fault)),
    }
}
