//! Cuts bytes into tokens.
ghost use Rattle.std.specs.Prelude.{true, false, pos, ℕ, ◌≡◌, ◌<◌, ◌≤◌, ◌^◌, List, Option, map, length, take, slice_index, MatchOption, MatchResult, IfSome, IfOk, IfErr};
ghost use Rattle.std.specs.List.{prefix_len, list_all};
ghost use Rattle.ept_tokens.specs.Tokens as spec;
ghost use Rattle.ept_tokens.specs.Tokens.{Cut, IsSign, Reason};
ghost use Rattle.ept_tokens.specs.Cutting.{AnswersCut, IsNext, IsNoNext, IsNotCut};

use crate::spellings::SPELLINGS;
use crate::token::{Kind, Token};
use hept_ast::{Memory, Name, Place};
use sqlite_items::Items;
use std::alloc::{AllocError, Global};

/// Why bytes were not cut into tokens.
#[derive(Clone, Copy, Debug, PartialEq, Eq)]
pub enum CutFault {
    /// A byte that begins no token.
    BadByte { at: Place },
    /// A comment that is not closed.
    OpenComment { at: Place },
    /// A number above 2147483647.
    NumberTooLarge { at: Place },
    Memory,
}

impl From<AllocError> for CutFault {
    ghost use Rattle.ept_tokens.specs.declared.cutter.CutFault.TheVariants.{Memory};

    ghost from_gives = { λ _ e. e ≡ Memory };

    fn from(_: AllocError) -> CutFault {
        CutFault::Memory
    }
}

impl From<Memory> for CutFault {
    ghost use Rattle.ept_tokens.specs.declared.cutter.CutFault.TheVariants.{Memory};

    ghost from_gives = { λ _ e. e ≡ Memory };

    fn from(_: Memory) -> CutFault {
        CutFault::Memory
    }
}

fn is_blank(byte: u8) -> bool
    ensures { result ≡ spec.is_blank byte }
{
    byte == b' ' || byte == b'\t' || byte == b'\r' || byte == b'\n'
}

fn is_digit(byte: u8) -> bool
    ensures { result ≡ spec.is_digit byte }
{
    byte >= b'0' && byte <= b'9'
}

/// Whether the byte may stand in a name, but for its first byte.
fn in_name(byte: u8) -> bool
    ensures { result ≡ spec.in_name byte }
{
    matches!(byte, b'a'..=b'z' | b'A'..=b'Z' | b'0'..=b'9' | b'_')
}

/// How many digits the bytes begin with.
fn digits_length(bytes: &[u8]) -> usize
    ensures value { result ≡ prefix_len spec.is_digit bytes.now }
    ensures within { result ≤ length bytes.now }
{
    let mut end = 0;
    while end < bytes.len() && is_digit(bytes[end]) {
        end += 1;
    }
    end
}

/// How many bytes of a name the bytes begin with.
fn name_length(bytes: &[u8]) -> usize
    ensures value { result ≡ prefix_len spec.in_name bytes.now }
    ensures within { result ≤ length bytes.now }
{
    let mut end = 0;
    while end < bytes.len() && in_name(bytes[end]) {
        end += 1;
    }
    end
}

fn find_kind(mut table: &[(&[u8], Kind)], spelling: &[u8]) -> Option<Kind>
    ensures { result ≡ spec.fixed_kind (map (λ e. (e.1, e.0.now)) table.entry.now) spelling.now }
{
    while let [entry, rest @ ..] = table {
        if entry.0 == spelling {
            return Some(entry.1);
        }
        table = rest;
    }
    None
}

/// The kind of the sign or reserved word that is spelled so, if there is one.
fn fixed_kind(spelling: &[u8]) -> Option<Kind>
    ensures { result ≡ spec.fixed_kind spec.fixed spelling.now }
{
    find_kind(&SPELLINGS, spelling)
}

/// How many bytes the comment takes that the bytes begin with, if it is closed.
fn comment_length(bytes: &[u8]) -> Option<usize>
    requires { spec.begins_comment bytes.now ≡ true }
    ensures value { result ≡ spec.comment_length 0 0 0 bytes.now }
    ensures within { IfSome result (λ n. (0 < n) × (n ≤ length bytes.now)) }
{
    let mut depth = 1usize;
    let mut rest = &bytes[2..];
    'bytes: while depth > 0 {
        match rest {
            [b'(', b'*', after @ ..] => {
                depth += 1;
                rest = after;
            }
            [b'*', b')', after @ ..] => {
                depth -= 1;
                rest = after;
            }
            [_, after @ ..] => rest = after,
            [] => return None,
        }
    }
    Some(bytes.len() - rest.len())
}

/// The number that digits write, if it is at most 2147483647.
fn number(digits: &[u8]) -> Option<i32>
    requires { list_all spec.is_digit digits.now ≡ true }
    ensures { MatchOption result (2147483648 ≤ spec.decimal 0 digits.now)
        (λ z. z ≡ pos (spec.decimal 0 digits.now)) }
{
    let mut value = 0u64;
    for digit in digits {
        value = value * 10 + u64::from(digit - b'0');
        if value > 2147483647 {
            return None;
        }
    }
    Some(value as i32)
}

/// The token of a name or of a reserved word.
fn word(bytes: &[u8]) -> (usize, Kind)
    requires within { 0 < length bytes.now }
    requires small { spec.is_small (slice_index bytes.now 0) ≡ true }
    ensures { spec.longest (length bytes.now) bytes.now ≡ Some result }
{
    let end = name_length(bytes);
    match fixed_kind(&bytes[..end]) {
        Some(kind) => (end, kind),
        None => (end, Kind::Lower),
    }
}

/// The sign of two bytes that the bytes begin with.
fn two_byte_sign(bytes: &[u8]) -> Option<Kind>
    ensures { MatchOption result
        (1 < length bytes.now → spec.fixed_kind spec.fixed (take 2 bytes.now) ≡ None)
        (λ k. (1 < length bytes.now) × (spec.fixed_kind spec.fixed (take 2 bytes.now) ≡ Some k)) }
{
    if bytes.len() < 2 {
        return None;
    }
    fixed_kind(&bytes[..2])
}

/// The longest sign that the bytes begin with: how many bytes it takes, and its kind.
fn sign(bytes: &[u8]) -> Option<(usize, Kind)>
    requires within { 0 < length bytes.now }
    requires sign { IsSign (slice_index bytes.now 0) }
    ensures { result ≡ spec.longest (length bytes.now) bytes.now }
{
    if let Some(kind) = two_byte_sign(bytes) {
        return Some((2, kind));
    }
    match fixed_kind(&bytes[..1]) {
        Some(kind) => Some((1, kind)),
        None => None,
    }
}

/// The longest token that the bytes begin with: how many bytes it takes, and its kind.
fn longest(bytes: &[u8]) -> Option<(usize, Kind)>
    requires { 0 < length bytes.now }
    ensures { result ≡ spec.longest (length bytes.now) bytes.now }
{
    match bytes[0] {
        b'a'..=b'z' => Some(word(bytes)),
        b'A'..=b'Z' => Some((name_length(bytes), Kind::Upper)),
        b'0'..=b'9' => Some((digits_length(bytes), Kind::Number)),
        _ => sign(bytes),
    }
}

/// The number that the spelling of a kind writes, and 0 for other kinds than numbers.
fn written(kind: Kind, spelling: &[u8]) -> Option<i32>
    requires { kind ≡ Kind.Number → list_all spec.is_digit spelling.now ≡ true }
    ensures { MatchOption result (2147483648 ≤ spec.number_of kind spelling.now)
        (λ z. (z ≡ pos (spec.number_of kind spelling.now)) × (spec.number_of kind spelling.now < 2147483648)) }
{
    match kind {
        Kind::Number => number(spelling),
        _ => Some(0),
    }
}

/// The name that the spelling of a kind is, and the empty one for other kinds than names.
fn named(alloc: Global, kind: Kind, spelling: &[u8]) -> Result<Name, CutFault>
    ensures { MatchResult result (λ n. n ≡ spec.name_of kind spelling.now) (λ f. f ≡ CutFault.Memory) }
{
    let bytes: &[u8] = match kind {
        Kind::Lower => spelling,
        Kind::Upper => spelling,
        _ => &[],
    };
    Ok(Name::of(alloc, bytes)?)
}

/// What the bytes begin with: how many bytes it takes, and the token, if it is one.
fn next(alloc: Global, bytes: &[u8], place: Place) -> Result<(usize, Option<Token>), CutFault>
    requires { 0 < length bytes.now }
    ensures next { MatchResult result (IsNext bytes.now place.0) (IsNoNext bytes.now place.0) }
    ensures within { IfOk result (λ x. (0 < x.0) × (x.0 ≤ length bytes.now)) }
{
    if is_blank(bytes[0]) {
        return Ok((1, None));
    }
    if begins_comment(bytes) {
        return match comment_length(bytes) {
            Some(length) => Ok((length, None)),
            None => Err(CutFault::OpenComment { at: place }),
        };
    }
    next_token(alloc, bytes, place)
}

fn begins_comment(bytes: &[u8]) -> bool
    ensures { result ≡ spec.begins_comment bytes.now }
{
    bytes.len() > 1 && bytes[0] == b'(' && bytes[1] == b'*'
}

/// The token that the bytes begin with.
fn next_token(alloc: Global, bytes: &[u8], place: Place) -> Result<(usize, Option<Token>), CutFault>
    requires within { 0 < length bytes.now }
    requires blank { spec.is_blank (slice_index bytes.now 0) ≡ false }
    requires comment { spec.begins_comment bytes.now ≡ false }
    ensures next { MatchResult result (IsNext bytes.now place.0) (IsNoNext bytes.now place.0) }
    ensures within { IfOk result (λ x. (0 < x.0) × (x.0 ≤ length bytes.now)) }
{
    let Some((length, kind)) = longest(bytes) else {
        return Err(CutFault::BadByte { at: place });
    };
    let spelling = &bytes[..length];
    let Some(number) = written(kind, spelling) else {
        return Err(CutFault::NumberTooLarge { at: place });
    };
    let name = named(alloc, kind, spelling)?;
    Ok((
        length,
        Some(Token {
            place,
            kind,
            number,
            name,
        }),
    ))
}

/// Cuts bytes into tokens. Each token is as long as possible; blanks and comments stand between them.
pub fn cut(alloc: Global, bytes: &[u8]) -> Result<Items<Token>, CutFault>
    // Places are 32-bit numbers.
    requires { length bytes.now < 2 ^ 32 }
    ensures tokens { IfOk result (λ ts. Cut bytes.now 0 ts None) }
    ensures refused { IfErr result (λ f. IsNotCut bytes.now f) }
    // Whatever the bytes are cut into is answered, unless memory runs out.
    ensures exactly { (ts : List Token) (f : Option (Reason × ℕ)) → Cut bytes.now 0 ts f → AnswersCut ts f result }
{
    let mut tokens = Items::new(alloc);
    let mut at = 0;
    while at < bytes.len() {
        let (length, token) = next(alloc, &bytes[at..], Place(at as u32))?;
        if let Some(token) = token {
            tokens.push(token)?;
        }
        at += length;
    }
    Ok(tokens)
}
