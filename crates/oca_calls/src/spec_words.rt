//! What an object is to be, and what it is, as C has it: one struct.
ghost use Rattle.std.specs.Prelude.{◌≡◌, ◌≤◌, ◌↔◌, IsTrue, drop, length, map, replicate, take};
ghost use Rattle.std.specs.Option.{option_copied};
ghost use Rattle.oca_calls.specs.CSpecs.{GivesKind, IsKindOf, IsOfThisVersion, flags_for, is_yes};

use crate::limits::reading_of;
use crate::name::{MOST_POSITIONS, Name};
use crate::value_words::ReadingWords;
use crate::words::put_words;
use arrayvec::ArrayVec;
use oca_model::{Reading, with_integers};
use oca_tree::Kind;

/// The size of [`SpecWords`] in bytes: 1,248.
pub const SPEC_SIZE: u32 = 1248;

/// The description of an object, for C (`struct oca_spec`): whether it can be locked, its class with its setting and
/// limits, its role, and what was stored of it. That is its label, whether it is enabled, and of a switch the names of
/// its positions and which positions are enabled. A byte that is 0 is false, any other byte is true.
#[repr(C)]
#[derive(Clone, Copy)]
pub struct SpecWords {
    pub size: u32,
    pub lockable: u8,
    pub enabled: u8,
    pub positions: u16,
    pub reading: ReadingWords,
    pub role: Name,
    pub label: Name,
    pub names: [Name; 16],
    pub enableds: [u8; 16],
    pub zeros: [u8; 6],
}

const _: () = prove!(std::mem::size_of::<SpecWords>() == 1248);

impl SpecWords {
    /// Whether the struct is of this version: its field `size` is 1,248, and the bytes that a later version may use are
    /// 0.
    pub fn is_of_this_version(&self) -> bool
        ensures { IsTrue result ↔ IsOfThisVersion self.now }
    {
        self.size == SPEC_SIZE && self.zeros == [0; 6]
    }
}

/// Returns these bytes as flags, in their order: 0 is false, any other byte is true. There must be at most 16 (a
/// premise).
pub fn flags_of(bytes: &[u8]) -> ArrayVec<bool, MOST_POSITIONS>
    requires { length bytes.now ≤ 16 }
    ensures { result.items ≡ map is_yes bytes.now }
{
    let mut flags = ArrayVec::new();
    for byte in bytes {
        flags.push(*byte != 0);
    }
    flags
}

/// Returns these flags as bytes, at the front of an array of 16: 0 is false and 1 is true. The bytes after them are 0.
/// There must be at most 16 (a premise).
#[tactic(auto, using(crate::proofs::PutLemmas::put_behind))]
pub fn bytes_of(flags: &[bool]) -> [u8; MOST_POSITIONS]
    requires { length flags.now ≤ 16 }
    ensures flags { map is_yes (take (length flags.now) result) ≡ flags.now }
    ensures others { drop (length flags.now) result ≡ drop (length flags.now) (replicate 16 0) }
{
    let mut bytes: ArrayVec<u8, MOST_POSITIONS> = ArrayVec::new();
    for flag in flags {
        bytes.push(u8::from(*flag));
    }
    let mut place = [0; MOST_POSITIONS];
    put_words(bytes.as_slice(), &mut place);
    place
}

/// The kind of object that is read so, a switch with these names.
#[tactic(auto, unfolding(oca_tree::specs::Building::value_of))]
fn kind_with<'a>(reading: Reading, names: &'a [&'a str]) -> Kind<'a>
    ensures { IsKindOf result reading (map (λ name. name.now) names.now) }
{
    macro_rules! kind {
        ($($integer:ident $type:ty),*) => {
            match reading {
                Reading::Mute(state) => Kind::Mute(state),
                Reading::Polarity(state) => Kind::Polarity(state),
                Reading::Switch(r) => Kind::Switch {
                    names,
                    position: r.setting,
                },
                Reading::Boolean(truth) => Kind::Boolean(truth),
                $(Reading::$integer(r) => Kind::$integer {
                    setting: r.setting,
                    least: r.least,
                    greatest: r.greatest,
                },)*
            }
        };
    }
    with_integers!(kind)
}

/// Returns the kind of object that `words` hold, a switch with these names of positions. For a block only the class is
/// looked at. `None` if `words` hold no reading.
pub fn kind_of<'a>(words: &ReadingWords, names: &'a [&'a str]) -> Option<Kind<'a>>
    ensures { GivesKind words.now (map (λ name. name.now) names.now) result }
{
    if words.value.class_number == 1 {
        return Some(Kind::Block);
    }
    let reading = reading_of(words)?;
    Some(kind_with(reading, names))
}

/// Returns `flags` if the object is a switch. `None` for an object of another kind, which has no positions.
pub fn flags_for<'a>(kind: &Kind<'_>, flags: &'a [bool]) -> Option<&'a [bool]>
    ensures { option_copied result ≡ flags_for kind.now flags.now }
{
    match kind {
        Kind::Switch { .. } => Some(flags),
        _ => None,
    }
}
