//! The words of a line, and what they mean.
ghost use Rattle.std.specs.Prelude.{◌≡◌, ◌<◌, [], ◌∷◌, ◌++◌, length, take, map, filter, position, IfSome, MatchOption, is_some, IsUtf8};
ghost use Rattle.std.specs.List.{list_all, slice_split};
ghost use Rattle.std.specs.Char.{is_ascii_digit};
ghost use Rattle.lock_script.specs.Words.{is_blank, is_word, words_of, is_name_byte, is_name, number_in, is_slash, strong_index_in, tag_of_numbers, advisory_of_numbers, tag_of, owner_of};

use crate::names::Name;
use arrayvec::ArrayVec;
use modes_core::{Owner, STRONG_COUNTERS, Tag};

/// The first six words of `line`, which are separated by spaces and tabs. No command has as many.
pub fn split_words(line: &str) -> ArrayVec<&str, 6>
    ensures { map (λ word. word.now) result.items ≡ take 6 (words_of line.now) }
{
    let mut words = ArrayVec::new();
    let mut rest = line;
    while let Some((word, after)) = cut_at_blank(rest) {
        keep_word(&mut words, word);
        rest = after;
    }
    keep_word(&mut words, rest);
    words
}

/// Adds `part`, which is between two blanks, to `words`, where `part` is not empty and `words` has room.
fn keep_word<'a>(words: &mut ArrayVec<&'a str, 6>, part: &'a str)
    ensures { map (λ word. word.now) words.new.items
        ≡ take 6 (map (λ word. word.now) words.old.items ++ filter is_word (part.now ∷ [])) }
{
    if words.is_full() {
        return;
    }
    if part.is_empty() {
        return;
    }
    words.push(part);
}

/// What comes before and after the first blank of `text`.
fn cut_at_blank(text: &str) -> Option<(&str, &str)>
    ensures parts { MatchOption result (slice_split is_blank text.now ≡ text.now ∷ [])
        (λ parts. slice_split is_blank text.now ≡ parts.0.now ∷ slice_split is_blank parts.1.now) }
    ensures shorter { IfSome result (λ parts. length parts.1.now < length text.now) }
    ensures text { IfSome result (λ parts. IsUtf8 parts.1.now) }
{
    match first_blank(text) {
        Some(end) => Some((&text[..end], &text[end + 1..])),
        None => None,
    }
}

/// Where the first blank of `text` is.
fn first_blank(text: &str) -> Option<usize>
    ensures { result ≡ position is_blank text.now }
{
    text.as_bytes()
        .iter()
        .position(|byte| matches!(*byte, b' ' | b'\t'))
}

/// Reads `word` as the name of a session: 1 to 16 characters of `a` to `z`, `0` to `9` and `_`.
pub fn parse_name(word: &str) -> Option<Name>
    ensures variant { is_some result ≡ is_name word.now }
    ensures value { IfSome result (λ name. name.bytes ≡ word.now) }
{
    if word.is_empty() || !has_name_bytes(word) {
        return None;
    }
    Name::from(word).ok()
}

/// Whether each character of `word` may be in the name of a session.
fn has_name_bytes(word: &str) -> bool
    ensures { result ≡ list_all is_name_byte word.now }
{
    word.as_bytes().iter().all(|byte| byte.is_ascii_lowercase()
        || byte.is_ascii_digit()
        || *byte == b'_')
}

/// Reads `word` as a number: 1 to 10 decimal digits, at most 4294967295.
pub fn parse_number(word: &str) -> Option<u32>
    ensures { result ≡ number_in word.now }
{
    if word.len() > 10 || !has_digits(word) {
        return None;
    }
    match word.parse::<u32>() {
        Ok(number) => Some(number),
        Err(_) => None,
    }
}

/// Reads `word` as the index of a strong lock counter: a number below 1,024.
pub fn parse_strong_index(word: &str) -> Option<u16>
    ensures value { result ≡ strong_index_in word.now }
    ensures exists { IfSome result (λ index. index < 1024) }
{
    match parse_number(word) {
        Some(number) if number < STRONG_COUNTERS => Some(number as u16),
        _ => None,
    }
}

/// Whether each character of `word` is a decimal digit.
fn has_digits(word: &str) -> bool
    ensures { result ≡ list_all is_ascii_digit word.now }
{
    word.as_bytes().iter().all(|byte| byte.is_ascii_digit())
}

/// Reads `word` as a lock tag: `DB/REL` is a relation, `DB/CLASS/OBJ/SUB` another object and
/// `adv/DB/K1/K2/SUB` that of an advisory lock. SUB is at most 65535.
pub fn parse_tag(word: &str) -> Option<Tag>
    ensures { result ≡ tag_of word.now }
{
    let Some((first, rest)) = cut_at_slash(word) else {
        return None;
    };
    if first == "adv" {
        parse_advisory(rest)
    } else {
        parse_catalogued(first, rest)
    }
}

/// Reads `numbers`, four with slashes between, as the lock tag of an advisory lock.
fn parse_advisory(numbers: &str) -> Option<Tag>
    ensures { result ≡ advisory_of_numbers (map number_in (slice_split is_slash numbers.now)) }
{
    let Some((database, rest)) = cut_at_slash(numbers) else {
        return None;
    };
    let Some((key1, rest)) = cut_at_slash(rest) else {
        return None;
    };
    let Some((key2, sub)) = cut_at_slash(rest) else {
        return None;
    };
    if cut_at_slash(sub).is_some() {
        return None;
    }
    advisory_tag(
        parse_number(database),
        parse_number(key1),
        parse_number(key2),
        parse_number(sub),
    )
}

/// Reads `rest`, which comes after the number `database`, as a relation or another object of that database.
fn parse_catalogued(database: &str, rest: &str) -> Option<Tag>
    ensures { result ≡ tag_of_numbers (number_in database.now ∷ map number_in (slice_split is_slash rest.now)) }
{
    let Some((class, rest)) = cut_at_slash(rest) else {
        return relation_tag(parse_number(database), parse_number(rest));
    };
    let Some((object, sub_object)) = cut_at_slash(rest) else {
        return None;
    };
    if cut_at_slash(sub_object).is_some() {
        return None;
    }
    object_tag(
        parse_number(database),
        parse_number(class),
        parse_number(object),
        parse_number(sub_object),
    )
}

/// Reads `word` as an owner: the word `session` is the session itself, and no other word is an owner.
pub fn parse_owner(word: &str) -> Option<Owner>
    ensures { result ≡ owner_of word.now }
{
    if word == "session" {
        Some(Owner::Session)
    } else {
        None
    }
}

/// What comes before and after the first slash of `word`.
fn cut_at_slash(word: &str) -> Option<(&str, &str)>
    ensures { MatchOption result (slice_split is_slash word.now ≡ word.now ∷ [])
        (λ parts. slice_split is_slash word.now ≡ parts.0.now ∷ slice_split is_slash parts.1.now) }
{
    word.split_once('/')
}

/// The lock tag of the relation `relation` of the database `database`, or `None` where one of these is.
fn relation_tag(database: Option<u32>, relation: Option<u32>) -> Option<Tag>
    ensures { result ≡ tag_of_numbers (database ∷ relation ∷ []) }
{
    match (database, relation) {
        (Some(database), Some(relation)) => Some(Tag::relation(database, relation)),
        _ => None,
    }
}

/// The lock tag of the advisory lock of `database` on the keys `key1`, `key2` and `sub`, or `None` where one
/// of these is, or `sub` is above 65535.
fn advisory_tag(
    database: Option<u32>,
    key1: Option<u32>,
    key2: Option<u32>,
    sub: Option<u32>,
) -> Option<Tag>
    ensures { result ≡ advisory_of_numbers (database ∷ key1 ∷ key2 ∷ sub ∷ []) }
{
    match (database, key1, key2, sub) {
        (Some(database), Some(key1), Some(key2), Some(sub)) => u16::try_from(sub)
            .ok()
            .map(|sub| Tag::advisory(database, key1, key2, sub)),
        _ => None,
    }
}

/// The lock tag of the object `object` of the catalog `class` of `database`, with its part `sub_object`, or
/// `None` where one of these is, or `sub_object` is above 65535.
fn object_tag(
    database: Option<u32>,
    class: Option<u32>,
    object: Option<u32>,
    sub_object: Option<u32>,
) -> Option<Tag>
    ensures { result ≡ tag_of_numbers (database ∷ class ∷ object ∷ sub_object ∷ []) }
{
    match (database, class, object, sub_object) {
        (Some(database), Some(class), Some(object), Some(sub_object)) => {
            u16::try_from(sub_object).ok().map(|sub_object| Tag::object(
                database, class, object, sub_object,
            ))
        }
        _ => None,
    }
}
