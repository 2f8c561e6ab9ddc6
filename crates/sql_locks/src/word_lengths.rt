//! The first word of a text of SQL statements: what it is, and how many bytes it has.
ghost use Rattle.std.specs.Prelude.{◌≡◌, ◌+◌, ◌-◌, ◌<◌, ◌≤◌, IfOk, IfErr, IfSome, true, false, length, take, slice_index};
ghost use Rattle.std.specs.List.{list_all};
ghost use Rattle.sql_locks.specs.Faults.{HasDefect};
ghost use Rattle.sql_locks.specs.Text.{is_in_class};
ghost use Rattle.sql_locks.specs.Words.{IsShape, IsWithin};

use crate::byte_classes::ByteClass;
use crate::faults::Defect;
use crate::words::WordKind;

/// The kind of the first word of `rest`, and how many bytes the word has.
#[tactic(auto, using(crate::proofs::Lemmas::Classes::no_tag))]
pub fn first_word(rest: &[u8]) -> Result<(WordKind, usize), Defect>
    requires { 0 < length rest.now }
    ensures within { IfOk result (λ found. IsWithin found.1 rest.now) }
    ensures shape { IfOk result (λ found. IsShape found.0 (take found.1 rest.now)) }
    ensures defect { IfErr result (λ what. HasDefect what rest.now) }
{
    match rest[0] {
        b';' => Ok((WordKind::Semicolon, 1)),
        b'(' | b')' | b'[' | b']' | b',' | b':' => Ok((WordKind::Mark, 1)),
        b'\\' => guard_of_dump(rest),
        b'\'' => quoted_text(rest, 0, false),
        b'"' => quoted_name(rest, 0),
        b'$' => dollar_word(rest),
        b'.' => point_or_number(rest),
        byte if ByteClass::Blank.has(byte) => Ok((
            WordKind::Blank,
            run_length(rest, ByteClass::Blank),
        )),
        byte if ByteClass::Digit.has(byte) => Ok((
            WordKind::Number,
            run_length(rest, ByteClass::Number),
        )),
        byte if ByteClass::Operator.has(byte) => comment_or_operator(rest),
        byte if ByteClass::Name.has(byte) => name_or_prefix(rest),
        _ => Err(Defect::StrayCharacter),
    }
}

/// How many bytes at the front of `rest` are of `class`.
fn run_length(rest: &[u8], class: ByteClass) -> usize
    ensures within { result ≤ length rest.now }
    ensures all { list_all (is_in_class class) (take result rest.now) ≡ true }
    ensures whole { result < length rest.now → is_in_class class (slice_index rest.now result) ≡ false }
    ensures some { 0 < length rest.now → is_in_class class (slice_index rest.now 0) ≡ true → 0 < result }
{
    for (place, byte) in rest.iter().enumerate() {
        if !class.has(*byte) {
            return place;
        }
    }
    rest.len()
}

/// The text in single quotes with which `rest` begins and whose first quote is at `begin`: its kind and its
/// length. Where `escapes`, a backslash takes the next byte with it.
fn quoted_text(rest: &[u8], begin: usize, escapes: bool) -> Result<(WordKind, usize), Defect>
    requires { begin < length rest.now }
    ensures within { IfOk result (λ found. IsWithin found.1 rest.now) }
    ensures shape { IfOk result (λ found. IsShape found.0 (take found.1 rest.now)) }
    ensures defect { IfErr result (λ what. what ≡ Defect.UnendedText) }
{
    match quoted_end(rest, begin, b'\'', escapes) {
        Some(end) => Ok((WordKind::Text, end)),
        None => Err(Defect::UnendedText),
    }
}

/// The name in double quotes with which `rest` begins and whose first quote is at `begin`: its kind and its
/// length.
fn quoted_name(rest: &[u8], begin: usize) -> Result<(WordKind, usize), Defect>
    requires { begin < length rest.now }
    ensures within { IfOk result (λ found. IsWithin found.1 rest.now) }
    ensures shape { IfOk result (λ found. IsShape found.0 (take found.1 rest.now)) }
    ensures defect { IfErr result (λ what. what ≡ Defect.UnendedName) }
{
    match quoted_end(rest, begin, b'"', false) {
        Some(end) => Ok((WordKind::QuotedName, end)),
        None => Err(Defect::UnendedName),
    }
}

/// Where the quoted part of `rest` ends whose first `quote` is at `begin`: after the first further `quote`
/// that is not doubled. Where `escapes`, a backslash takes the next byte with it.
fn quoted_end(rest: &[u8], begin: usize, quote: u8, escapes: bool) -> Option<usize>
    requires { begin < length rest.now }
    ensures within { IfSome result (λ end. (begin + 1 < end) × (end ≤ length rest.now)) }
    ensures quote { IfSome result (λ end. slice_index rest.now (end - 1) ≡ quote) }
{
    let mut is_taken = false;
    'bytes: for place in begin + 1..rest.len() {
        let byte = rest[place];
        if is_taken {
            is_taken = false;
        } else if byte == quote {
            if !is_at(rest, place + 1, quote) {
                return Some(place + 1);
            }
            is_taken = true;
        } else if byte == b'\\' {
            is_taken = escapes;
        }
    }
    None
}

/// Whether `byte` is at `place` in `text`.
fn is_at(text: &[u8], place: usize, byte: u8) -> bool
    ensures within { result ≡ true → place < length text.now }
    ensures byte { result ≡ true → slice_index text.now place ≡ byte }
{
    match text.get(place) {
        Some(found) => *found == byte,
        None => false,
    }
}

/// The kind and the length of the word with which `rest` begins: a parameter, as `$1`, or a text between two
/// dollar tags.
fn dollar_word(rest: &[u8]) -> Result<(WordKind, usize), Defect>
    requires some { 0 < length rest.now }
    requires dollar { slice_index rest.now 0 ≡ 36 }
    ensures within { IfOk result (λ found. IsWithin found.1 rest.now) }
    ensures shape { IfOk result (λ found. IsShape found.0 (take found.1 rest.now)) }
    ensures defect { IfErr result (λ what. HasDefect what rest.now) }
{
    let digits = run_length(&rest[1..], ByteClass::Digit);
    if digits > 0 {
        return Ok((WordKind::Parameter, digits + 1));
    }
    let tag = run_length(&rest[1..], ByteClass::Tag) + 1;
    if !is_at(rest, tag, b'$') {
        return Err(Defect::StrayCharacter);
    }
    match dollar_end(rest, tag + 1) {
        Some(end) => Ok((WordKind::Text, end)),
        None => Err(Defect::UnendedDollarText),
    }
}

/// Where the text between dollar tags ends with which `rest` begins. The opening tag has `tag` bytes, with
/// both dollars.
fn dollar_end(rest: &[u8], tag: usize) -> Option<usize>
    requires some { 0 < tag }
    requires within { tag ≤ length rest.now }
    ensures { IfSome result (λ end. (0 < end) × (end ≤ length rest.now)) }
{
    let (opening, body) = rest.split_at(tag);
    'bytes: for place in 0..body.len() {
        if body[place] == b'$' && body[place..].starts_with(opening) {
            return Some(tag + place + tag);
        }
    }
    None
}

/// The kind and the length of the word with which `rest` begins: a point, or a number that begins with a
/// point.
fn point_or_number(rest: &[u8]) -> Result<(WordKind, usize), Defect>
    requires some { 0 < length rest.now }
    requires point { slice_index rest.now 0 ≡ 46 }
    ensures within { IfOk result (λ found. IsWithin found.1 rest.now) }
    ensures shape { IfOk result (λ found. IsShape found.0 (take found.1 rest.now)) }
    ensures defect { IfErr result (λ what. HasDefect what rest.now) }
{
    match rest {
        [_, b'0'..=b'9', ..] => Ok((WordKind::Number, run_length(rest, ByteClass::Number))),
        _ => Ok((WordKind::Mark, 1)),
    }
}

/// The kind and the length of the line with which `rest` begins and by which a dump is guarded, `\restrict
/// KEY` or `\unrestrict KEY`. Such a line is passed as a comment is. Another command of psql is a defect.
fn guard_of_dump(rest: &[u8]) -> Result<(WordKind, usize), Defect>
    requires some { 0 < length rest.now }
    requires backslash { slice_index rest.now 0 ≡ 92 }
    ensures within { IfOk result (λ found. IsWithin found.1 rest.now) }
    ensures shape { IfOk result (λ found. IsShape found.0 (take found.1 rest.now)) }
    ensures defect { IfErr result (λ what. HasDefect what rest.now) }
{
    if rest.starts_with(b"\\restrict ") || rest.starts_with(b"\\unrestrict ") {
        return Ok((WordKind::Comment, run_length(rest, ByteClass::Line)));
    }
    Err(Defect::BackslashCommand)
}

/// The kind and the length of the comment or the operator with which `rest` begins.
fn comment_or_operator(rest: &[u8]) -> Result<(WordKind, usize), Defect>
    requires { 0 < length rest.now }
    ensures within { IfOk result (λ found. IsWithin found.1 rest.now) }
    ensures shape { IfOk result (λ found. IsShape found.0 (take found.1 rest.now)) }
    ensures defect { IfErr result (λ what. HasDefect what rest.now) }
{
    if rest.starts_with(b"--") {
        return Ok((WordKind::Comment, run_length(rest, ByteClass::Line)));
    }
    if rest.starts_with(b"/*") {
        return match comment_end(rest) {
            Some(end) => Ok((WordKind::Comment, end)),
            None => Err(Defect::UnendedComment),
        };
    }
    Ok((WordKind::Operator, operator_length(rest)))
}

/// Where the comment ends that opens with the `/*` at the front of `rest`. Comments nest.
fn comment_end(rest: &[u8]) -> Option<usize>
    ensures { IfSome result (λ end. (0 < end) × (end ≤ length rest.now)) }
{
    let mut depth = 0usize;
    let mut is_taken = false;
    'bytes: for place in 0..rest.len() {
        if is_taken {
            is_taken = false;
        } else if rest[place] == b'/' && is_at(rest, place + 1, b'*') {
            depth = depth.saturating_add(1);
            is_taken = true;
        } else if rest[place] == b'*' && is_at(rest, place + 1, b'/') {
            depth = depth.saturating_sub(1);
            is_taken = true;
            if depth == 0 {
                return rest.get(place + 1).map(|_| place + 2);
            }
        }
    }
    None
}

/// How many bytes the operator has with which `rest` begins: the operator ends where a comment begins.
fn operator_length(rest: &[u8]) -> usize
    requires { 0 < length rest.now }
    ensures within { IsWithin result rest.now }
{
    let length = run_length(rest, ByteClass::Operator);
    'bytes: for place in 1..length {
        if rest[place..].starts_with(b"--") || rest[place..].starts_with(b"/*") {
            return place;
        }
    }
    length.max(1)
}

/// The kind and the length of the word with which `rest` begins: a name, a text with a prefix, as `E'..'`, or
/// a name in quotes with the prefix `U&`.
fn name_or_prefix(rest: &[u8]) -> Result<(WordKind, usize), Defect>
    requires some { 0 < length rest.now }
    requires name { is_in_class ByteClass.Name (slice_index rest.now 0) ≡ true }
    ensures within { IfOk result (λ found. IsWithin found.1 rest.now) }
    ensures shape { IfOk result (λ found. IsShape found.0 (take found.1 rest.now)) }
    ensures defect { IfErr result (λ what. HasDefect what rest.now) }
{
    match rest {
        [b'e' | b'E', b'\'', ..] => quoted_text(rest, 1, true),
        [b'b' | b'B' | b'x' | b'X' | b'n' | b'N', b'\'', ..] => quoted_text(rest, 1, false),
        [b'u' | b'U', b'&', b'\'', ..] => quoted_text(rest, 2, false),
        [b'u' | b'U', b'&', b'"', ..] => quoted_name(rest, 2),
        _ => Ok((WordKind::Name, run_length(rest, ByteClass::Name))),
    }
}

/// The rows of a `COPY .. FROM stdin` at the front of `rest`, which begin after the line's end: all up to the
/// line `\.`, and how many bytes that is.
pub fn rows_length(rest: &[u8]) -> Result<(WordKind, usize), Defect>
    requires { 0 < length rest.now }
    ensures within { IfOk result (λ found. IsWithin found.1 rest.now) }
    ensures shape { IfOk result (λ found. IsShape found.0 (take found.1 rest.now)) }
    ensures defect { IfErr result (λ what. HasDefect what rest.now) }
{
    'bytes: for place in 0..rest.len() {
        if rest[place] == b'\n' && ends_rows(&rest[place + 1..]) {
            return Ok((WordKind::Rows, place + 3));
        }
    }
    Err(Defect::UnendedRows)
}

/// Whether `rest` begins with the line `\.`, which ends the rows of a `COPY .. FROM stdin`.
fn ends_rows(rest: &[u8]) -> bool
    ensures { result ≡ true → 2 ≤ length rest.now }
{
    match rest {
        [b'\\', b'.'] => true,
        [b'\\', b'.', end, ..] => *end == b'\n' || *end == b'\r',
        _ => false,
    }
}
