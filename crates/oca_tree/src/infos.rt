//! Going through what the objects of a tree are.
ghost use Rattle.std.specs.Prelude.{◌≡◌, map};
ghost use Rattle.oca_tree.specs.Readers.{info_of, infos_left};

use crate::object::Object;
use crate::tree::{ObjectInfo, info_of};

/// An iterator over the objects of a tree, in order of adding, with the root first. Each item is an
/// [`ObjectInfo`](crate::ObjectInfo).
#[derive(Drop)]
pub struct ObjectInfos<'a> {
    rest: &'a [Object],
}

impl<'a> ObjectInfos<'a> {
    /// At the first of these objects.
    pub(crate) fn new(objects: &'a [Object]) -> ObjectInfos<'a>
        ensures { infos_left result ≡ map info_of objects.now }
    {
        ObjectInfos { rest: objects }
    }
}

impl<'a> Iterator for ObjectInfos<'a> {
    ghost use Rattle.std.specs.Iterator.{YieldsFirst, item_count};
    ghost use Rattle.oca_tree.specs.Readers.{infos_left};

    type Item = ObjectInfo;

    ghost next_gives = { YieldsFirst infos_left };

    ghost remaining = { item_count infos_left };

    /// Returns what the next object is, and `None` after the last object.
    fn next(&mut self) -> Option<ObjectInfo> {
        match self.rest.split_first() {
            Some((object, rest)) => {
                self.rest = rest;
                Some(info_of(object))
            }
            None => None,
        }
    }
}
