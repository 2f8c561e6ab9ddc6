//! The words of lines that give names, to sessions and to objects.
ghost use Rattle.std.specs.Prelude.{◌≡◌, [], ◌∷◌, map, true, Some, None, IfOk, IfErr};
ghost use Rattle.lock_script.specs.Defects.{IsMisfitAnyway, IsNoNaming, IsTakenName, IsTakenTag};
ghost use Rattle.lock_script.specs.declared.commands.WordKind.TheVariants.{FreeName, Number};
ghost use Rattle.lock_script.specs.Meaning.{NamesNew, NamesObject};
ghost use Rattle.lock_script.specs.Objects.{is_object_name, name_given, tag_called, tag_in};

use crate::faults::Defect;
use crate::names::Name;
use crate::objects::{ObjectName, ObjectNames, parse_object, parse_object_name};
use crate::sessions::OpenSessions;
use crate::words::{parse_name, parse_number};
use modes_core::Tag;

/// Reads the `words` of a `session` line: a name that no session of `sessions` has, and the number of a
/// database.
pub fn parse_session<S, W>(
    words: &[&str],
    sessions: &OpenSessions<S, W>,
) -> Result<(Name, u32), Defect>
    ensures named { IfOk result (λ parsed.
        NamesNew sessions.now (map (λ word. word.now) words.now) parsed.0 parsed.1) }
    ensures refused { IfErr result (IsMisfitAnyway sessions.now (FreeName ∷ Number ∷ [])
        (map (λ word. word.now) words.now)) }
{
    let [name, database] = words else {
        return Err(Defect::WrongNumberOfWords);
    };
    let name = parse_name(name).ok_or(Defect::BadName)?;
    if sessions.place_called(&name).is_some() {
        return Err(Defect::SessionExists);
    }
    let database = parse_number(database).ok_or(Defect::BadNumber)?;
    Ok((name, database))
}

/// Reads the `words` of a `name` line: a name that none of `objects` has, and an object that has none.
pub fn parse_naming(words: &[&str], objects: &ObjectNames) -> Result<(ObjectName, Tag), Defect>
    ensures named { IfOk result (λ parsed.
        NamesObject objects.now (map (λ word. word.now) words.now) parsed.0 parsed.1) }
    ensures refused { IfErr result (IsNoNaming objects.now (map (λ word. word.now) words.now)) }
{
    let [name, object] = words else {
        return Err(Defect::WrongNumberOfWords);
    };
    let name = parse_free_name(name, objects)?;
    let tag = parse_unnamed(object, objects)?;
    Ok((name, tag))
}

/// Reads `word` as a name that none of `objects` has.
fn parse_free_name(word: &str, objects: &ObjectNames) -> Result<ObjectName, Defect>
    ensures name { IfOk result (λ name. (name.bytes ≡ word.now) × (is_object_name word.now ≡ true)) }
    ensures free { IfOk result (λ name. tag_called objects.now word.now ≡ None) }
    ensures refused { IfErr result (IsTakenName objects.now word.now) }
{
    let name = parse_object_name(word).ok_or(Defect::BadName)?;
    match objects.tag_called(word) {
        None => Ok(name),
        Some(_) => Err(Defect::NameExists),
    }
}

/// Reads `word` as an object that has no name in `objects`.
fn parse_unnamed(word: &str, objects: &ObjectNames) -> Result<Tag, Defect>
    ensures tag { IfOk result (λ tag. tag_in objects.now word.now ≡ Some tag) }
    ensures unnamed { IfOk result (λ tag. name_given objects.now tag ≡ None) }
    ensures refused { IfErr result (IsTakenTag objects.now word.now) }
{
    let tag = parse_object(word, objects).ok_or(Defect::BadObject)?;
    match objects.name_of(tag) {
        None => Ok(tag),
        Some(_) => Err(Defect::ObjectNamed),
    }
}
