//! The names that a script gives to objects.
ghost use Rattle.std.specs.Prelude.{◌≡◌, ◌++◌, [], ◌∷◌, Some, None, IfSome, OnOk, OnErr, is_some};
ghost use Rattle.std.specs.List.{list_all};
ghost use Rattle.lock_script.specs.Objects.{AreApart, begins_name, has_name_bytes, is_object_byte, is_object_name, name_given, tag_called, tag_in};

use crate::words::parse_tag;
use arrayvec::ArrayString;
use modes_core::Tag;
use std::alloc::{AllocError, Global};
use std::marker::Model;

/// An object's name: a letter or an underscore, and after it up to 62 letters, digits and `_`, `$` and `.`.
pub type ObjectName = ArrayString<63>;

/// An object with the name by which it goes.
#[derive(Clone, Copy, Debug, PartialEq, Eq)]
pub struct NamedObject {
    pub name: ObjectName,
    pub tag: Tag,
}

/// The objects that have names, in the order in which they were named. No two objects have one name, and no
/// object has two names. Contracts see the objects as a list.
#[derive(Drop)]
pub struct ObjectNames {
    objects: Vec<NamedObject>,
}

impl Model for ObjectNames {
    ghost use Rattle.std.specs.Prelude.{List};
    ghost use Rattle.lock_script.specs.declared.objects.NamedObject.{NamedObject};
    ghost use Rattle.lock_script.specs.Objects.{AreApart};

    ghost Value = { List NamedObject };

    ghost view = { λ names. names.objects.items };

    ghost invariant = { λ names. AreApart names.objects.items };
}

impl ObjectNames {
    /// An empty list of named objects. Later names take memory by `alloc`.
    pub fn new(alloc: Global) -> Self
        ensures { result ≡ [] }
    {
        ObjectNames {
            objects: Vec::new(alloc),
        }
    }

    /// All named objects, in the order in which they were named.
    pub fn as_slice(&self) -> &[NamedObject]
        ensures { result.now ≡ self.now }
    {
        self.objects.as_slice()
    }

    /// The object that goes by `name`, if one does. The object has no other name.
    pub fn tag_called(&self, name: &str) -> Option<Tag>
        ensures called { result ≡ tag_called self.now name.now }
    {
        self.objects
            .iter()
            .find(|one| one.name.as_str() == name)
            .map(|one| one.tag)
    }

    /// The name by which the object `tag` goes, if it has one. By `tag_called` that name is `tag`.
    pub fn name_of(&self, tag: Tag) -> Option<ObjectName>
        ensures given { result ≡ name_given self.now tag }
        ensures reads_back { IfSome result (λ name. tag_called self.now name.bytes ≡ Some tag) }
    {
        self.find_name(tag)
    }

    /// The first name in the list that is of the object `tag`, if there is one.
    fn find_name(&self, tag: Tag) -> Option<ObjectName>
        ensures given { result ≡ name_given self.now tag }
        ensures apart { AreApart self.now }
    {
        self.objects
            .iter()
            .find(|one| one.tag == tag)
            .map(|one| one.name)
    }

    /// Gives the object `tag` the name `name`. Refused only where memory ran out, and then nothing is named.
    pub fn push(&mut self, name: ObjectName, tag: Tag) -> Result<(), AllocError>
        requires free { tag_called self.old name.bytes ≡ None }
        requires unnamed { name_given self.old tag ≡ None }
        ensures named { OnOk result (self.new ≡ self.old ++ record { name = name; tag = tag } ∷ []) }
        ensures refused { OnErr result (self.new ≡ self.old) }
    {
        self.objects.push(NamedObject { name, tag })?;
        Ok(())
    }
}

/// Reads `word` as a name for an object.
pub fn parse_object_name(word: &str) -> Option<ObjectName>
    ensures variant { is_some result ≡ is_object_name word.now }
    ensures value { IfSome result (λ name. name.bytes ≡ word.now) }
{
    if !has_name_bytes(word) {
        return None;
    }
    ObjectName::from(word).ok()
}

/// Whether each character of `word` may be in an object's name at the character's place.
fn has_name_bytes(word: &str) -> bool
    ensures { result ≡ has_name_bytes word.now }
{
    match word.as_bytes().split_first() {
        Some((first, others)) => begins_name(*first) && are_name_bytes(others),
        None => false,
    }
}

/// Whether each of `bytes` may be in an object's name after its first character.
fn are_name_bytes(bytes: &[u8]) -> bool
    ensures { result ≡ list_all is_object_byte bytes.now }
{
    bytes.iter().all(|byte| is_name_byte(*byte))
}

/// Whether an object's name may begin with `byte`: a letter or an underscore.
fn begins_name(byte: u8) -> bool
    ensures { result ≡ begins_name byte }
{
    byte.is_ascii_alphabetic() || byte == b'_'
}

/// Whether `byte` may be in an object's name after its first character.
fn is_name_byte(byte: u8) -> bool
    ensures { result ≡ is_object_byte byte }
{
    begins_name(byte) || byte.is_ascii_digit() || byte == b'$' || byte == b'.'
}

/// The object that `word` means: the lock tag that `word` is, written in numbers, or otherwise the one of
/// `objects` that goes by `word`.
pub fn parse_object(word: &str, objects: &ObjectNames) -> Option<Tag>
    ensures { result ≡ tag_in objects.now word.now }
{
    match parse_tag(word) {
        Some(tag) => Some(tag),
        None => objects.tag_called(word),
    }
}
