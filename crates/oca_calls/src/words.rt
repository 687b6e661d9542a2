//! What C reads of a verdict and of an object: words, so that a later version can tell more to those who ask for it.
ghost use Rattle.std.specs.Prelude.{◌≡◌, ◌≤◌, ◌<◌, ◌⊎◌, ◌++◌, drop, length};
ghost use Rattle.oca_device.specs.Written.{numbers_of};
ghost use Rattle.oca_calls.specs.LinkCalls.{LiesIn};
ghost use Rattle.oca_calls.specs.declared.answer.Answer.TheVariants.{Done, TooSmall};
ghost use Rattle.oca_calls.specs.Numbers.{answer_number};
ghost use Rattle.oca_calls.specs.Outputs.{WritesToBuffer, class_number, effect_words, lock_number, object_words};
ghost use Rattle.oca_calls.specs.Outputs.{put_words, verdict_words};

use crate::answer::Answer;
use oca_device::{CommandOutcome, Effect, Verdict};
use oca_tree::{LockKind, ObjectInfo};
use oca_types::{Class, Ono};

/// The number of words of a verdict for C: 7 (`struct oca_verdict`).
pub const VERDICT_WORDS: usize = 7;

/// The number of words of an effect for C: 4 (`struct oca_effect`).
pub const EFFECT_WORDS: usize = 4;

/// The number of words of an object for C, beside its role: 4 (`struct oca_object`).
pub const OBJECT_WORDS: usize = 4;

/// Returns the verdict as seven words for C. For a datagram that was served: 0, four counts of its commands, and two
/// zeros. The counts are those of commands that were executed, were duplicates, were too old, and asked something else
/// under the handle of a retained command. For a malformed datagram: 1, four zeros, the number of the fault (1 to 9)
/// and its offset in bytes. If there was no room for the sender: 2 and six zeros.
pub fn words_of(verdict: Verdict) -> [u32; VERDICT_WORDS]
    ensures { result ≡ verdict_words verdict }
{
    match verdict {
        Verdict::Served {
            executed,
            kept,
            old,
            reused,
        } => [0, executed, kept, old, reused, 0, 0],
        Verdict::Malformed(fault) => [
            1,
            0,
            0,
            0,
            0,
            u32::from(fault.kind.number()),
            u32::from(fault.at),
        ],
        Verdict::NoRoom => [2, 0, 0, 0, 0, 0, 0],
    }
}

/// Returns what a device did with a command, as four words for C: the number of the object that the command names, its
/// method (the level in the upper 16 bits, the index in the lower ones), what was done, and a status. What was done is
/// 1 if the command was executed, 2 if it is a duplicate, 3 if it is too old, and 4 if it asks something else under the
/// handle of a retained command. The status is that of an execution (OcaStatus, AES70-2), and 0 otherwise.
pub fn effect_words(effect: Effect) -> [u32; EFFECT_WORDS]
    ensures { result ≡ effect_words effect }
{
    let target = effect.target.0;
    let method = u32::from(effect.method.level) * 65_536 + u32::from(effect.method.index);
    match effect.outcome {
        CommandOutcome::Executed(status) => [target, method, 1, u32::from(status.number())],
        CommandOutcome::Duplicate => [target, method, 2, 0],
        CommandOutcome::Old => [target, method, 3, 0],
        CommandOutcome::Reused => [target, method, 4, 0],
    }
}

/// Returns what an object is, as four words for C: its number, its container's number (0 for the root), the number of
/// its class (1 to 13, [`class_number`]) and the size of its role in bytes.
pub fn object_words(object: &ObjectInfo) -> [u32; OBJECT_WORDS]
    ensures { result ≡ object_words object.now }
{
    let role = object.role.as_str();
    [
        object.ono.0,
        object.container.0,
        class_number(object.class),
        role.len() as u32,
    ]
}

/// Returns the number of a class in C: 1 OcaBlock, 2 OcaMute, 3 OcaPolarity, 4 OcaSwitch, 5 OcaBooleanActuator. 6 to 9
/// are OcaInt8Actuator to OcaInt64Actuator, and 10 to 13 are OcaUint8Actuator to OcaUint64Actuator.
pub fn class_number(class: Class) -> u32
    ensures { result ≡ class_number class }
{
    match class {
        Class::Block => 1,
        Class::Mute => 2,
        Class::Polarity => 3,
        Class::Switch => 4,
        Class::Boolean => 5,
        Class::Int8 => 6,
        Class::Int16 => 7,
        Class::Int32 => 8,
        Class::Int64 => 9,
        Class::Uint8 => 10,
        Class::Uint16 => 11,
        Class::Uint32 => 12,
        Class::Uint64 => 13,
    }
}

/// Returns the number of a kind of lock in C: 1 for a lock that keeps other peers from all access, 2 for a lock that
/// lets them read.
pub fn lock_number(kind: LockKind) -> u32
    ensures { result ≡ lock_number kind }
{
    match kind {
        LockKind::Total => 1,
        LockKind::Readonly => 2,
    }
}

/// Copies words to the front of `place`, as many as it has room for. The rest of `place` stays as it is. What has no
/// room is left out.
pub fn put_words<T: Copy>(words: &[T], place: &mut [T])
    ensures { place.new ≡ put_words words.now place.old }
{
    let count = words.len().min(place.len());
    let (front, _) = place.split_at_mut(count);
    front.copy_from_slice(&words[..count]);
}

/// Copies the numbers of objects to the front of `place`, as many as it has room for. The rest of `place` stays as it
/// is.
pub fn put_numbers(onos: &[Ono], place: &mut [u32])
    ensures { place.new ≡ put_words (numbers_of onos.now) place.old }
{
    let count = onos.len().min(place.len());
    for i in 0..count {
        place[i] = onos[i].0;
    }
}

/// Copies bytes to the front of `place`, and returns how many they are. `place` must have room for them (a premise).
/// The rest of `place` stays as it is.
pub fn put_front(bytes: &[u8], place: &mut [u8]) -> usize
    requires { length bytes.now ≤ length place.old }
    ensures lies { LiesIn bytes.now place.new result }
    ensures place { place.new ≡ bytes.now ++ drop (length bytes.now) place.old }
{
    let (front, _) = place.split_at_mut(bytes.len());
    front.copy_from_slice(bytes);
    bytes.len()
}

/// Copies bytes to the front of `place`, and writes to `len` how many they are. The rest of `place` stays as it is.
/// Returns `Done`. `TooSmall` if `place` has fewer bytes: then only `len` is written.
pub fn put_bytes(bytes: &[u8], place: &mut [u8], len: &mut usize) -> Answer
    ensures writes { WritesToBuffer bytes.now place.old place.new len.new (answer_number result) }
    ensures refused { (result ≡ Done) ⊎ ((result ≡ TooSmall) × (place.new ≡ place.old)) }
{
    *len = bytes.len();
    if place.len() < bytes.len() {
        return Answer::TooSmall;
    }
    put_front(bytes, place);
    Answer::Done
}
