//! How many objects a tree has room for.
ghost use Rattle.std.specs.Prelude.{◌≤◌};

/// For how many objects a tree has memory, the root counted: from 1 to 4,096 (*profile*). The default is 128.
#[derive(Clone, Copy, Debug, PartialEq, Eq)]
pub struct Room {
    size: u16,
    pub ghost least: { 1 ≤ size },
    pub ghost most: { size ≤ 4096 },
}

impl Room {
    ghost use Rattle.std.specs.Prelude.{◌≡◌, ◌≤◌, ◌↔◌, IsSome, IfSome};
    ghost use Rattle.oca_tree.specs.Room.{room_size};

    /// Returns the size of a tree of at most `size` objects, the root counted. `size` is from 1 to 4,096, and the
    /// default of [`Room`] is 128. The result is `None` if `size` is 0, or above 4,096. The call takes no memory:
    /// [`TreeBuilder::with_room`](crate::TreeBuilder::with_room) takes the memory.
    pub fn new(size: u16) -> Option<Room>
        ensures variant { IsSome result ↔ ((1 ≤ size) × (size ≤ 4096)) }
        ensures value { IfSome result (λ room. room_size room ≡ size) }
    {
        match size {
            1..=4096 => Some(Room { size }),
            _ => None,
        }
    }

    /// Returns how many objects the tree has room for, the root counted: from 1 to 4,096, and 128 for the default.
    pub fn get(self) -> u16
        ensures value { result ≡ room_size self }
        ensures least { 1 ≤ result }
        ensures most { result ≤ 4096 }
    {
        self.size
    }
}

impl Default for Room {
    ghost use Rattle.std.specs.Prelude.{◌≡◌};
    ghost use Rattle.oca_tree.specs.Room.{room_size};

    ghost is_default = { λ room. room_size room ≡ 128 };

    /// Returns the room for 128 objects.
    fn default() -> Self {
        Room { size: 128 }
    }
}
