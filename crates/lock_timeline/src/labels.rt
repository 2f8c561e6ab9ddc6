//! How the objects of a timeline are called.

use modes_core::{Mode, Tag};
use std::alloc::{AllocError, Global};

/// An object that has a name.
#[derive(Drop)]
struct NamedObject {
    tag: Tag,
    name: String,
}

/// What the labels of bars are made from: the names of the objects that have one.
#[derive(Drop)]
pub struct Labels {
    alloc: Global,
    named: Vec<NamedObject>,
}

impl Labels {
    /// Labels of objects of which none has a name.
    pub fn new(alloc: Global) -> Self {
        Labels {
            alloc,
            named: Vec::new(alloc),
        }
    }

    /// Gives the object `tag` the name `name`.
    pub fn push(&mut self, tag: Tag, name: &str) -> Result<(), AllocError> {
        let name = String::from_str(self.alloc, name)?;
        self.named.push(NamedObject { tag, name })?;
        Ok(())
    }

    /// The label of a lock on the object `tag` in `mode`: the object's name, or else its tag, and the mode.
    pub fn of(&self, tag: Tag, mode: Mode) -> Result<String, AllocError> {
        for object in &self.named {
            if object.tag == tag {
                let name = object.name.as_str();
                return format!(in self.alloc; "{name} {mode}");
            }
        }
        format!(in self.alloc; "{tag} {mode}")
    }
}
