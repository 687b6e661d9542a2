//! Adding an object that a struct describes.
ghost use Rattle.std.specs.Prelude.{◌≡◌, ◌≤◌, map};
ghost use Rattle.std.specs.Option.{option_copied};
ghost use Rattle.oca_tree.specs.Starts.{flags_of};
ghost use Rattle.oca_calls.specs.Calls.{name_bytes};
ghost use Rattle.oca_calls.specs.CSpecs.{GivenAddedBy, NamedAddedBy, GivesSpec, SpecAddedBy};
ghost use Rattle.oca_calls.specs.CSpecs.{texts_of as position_texts};

use crate::answer::Answer;
use crate::name::{MOST_POSITIONS, text_of, texts_of};
use crate::spec_words::{SpecWords, flags_for, flags_of, kind_of};
use oca_tree::{Spec, Start, TreeBuilder};
use oca_types::Ono;

/// Adds the object that `words` describe, under the number `ono`, to the block with the number `container` of a
/// builder.
pub fn add_spec(builder: &mut TreeBuilder, container: u32, ono: u32, words: &SpecWords) -> Answer
    ensures { SpecAddedBy result builder.old builder.new container ono words.now }
{
    if !words.is_of_this_version() {
        return Answer::BadSize;
    }
    let positions = usize::from(words.positions);
    if positions > MOST_POSITIONS {
        return Answer::BadRange;
    }
    let Some(names) = texts_of(&words.names[..positions]) else {
        return Answer::BadText;
    };
    add_named(builder, container, ono, words, names.as_slice())
}

/// Adds an object, once its size is right and the names of its positions are read.
fn add_named(
    builder: &mut TreeBuilder,
    container: u32,
    ono: u32,
    words: &SpecWords,
    names: &[&str],
) -> Answer
    requires positions { words.now.positions ≤ 16 }
    requires names { map (λ name. name.now) names.now ≡ position_texts words.now }
    ensures { NamedAddedBy result builder.old builder.new container ono words.now }
{
    let Some(role) = text_of(&words.role) else {
        return Answer::BadText;
    };
    let Some(label) = text_of(&words.label) else {
        return Answer::BadText;
    };
    let Some(kind) = kind_of(&words.reading, names) else {
        return Answer::NoValue;
    };
    let spec = Spec {
        role,
        lockable: words.lockable != 0,
        kind,
    };
    add_given(builder, container, ono, words, &spec, label)
}

/// Adds an object that the words describe, with what was stored.
fn add_given(
    builder: &mut TreeBuilder,
    container: u32,
    ono: u32,
    words: &SpecWords,
    spec: &Spec<'_>,
    label: &str,
) -> Answer
    requires positions { words.now.positions ≤ 16 }
    requires spec { GivesSpec words.now spec.now }
    requires label { label.now ≡ name_bytes words.now.label }
    ensures { GivenAddedBy result builder.old builder.new container ono words.now }
{
    let flags = flags_of(&words.enableds[..usize::from(words.positions)]);
    let enableds = flags_for(&spec.kind, flags.as_slice());
    let start = start_with(label, words.enabled != 0, enableds);
    match builder.add_with(Ono(container), Ono(ono), spec, &start) {
        Ok(()) => Answer::Done,
        Err(fault) => Answer::of_start(fault),
    }
}

/// Returns what was stored of an object, for a builder: this label, whether it is enabled, and of a switch which
/// positions are enabled. `enableds` is `None` for an object of another class. Nothing is checked.
pub fn start_with<'a>(label: &'a str, enabled: bool, enableds: Option<&'a [bool]>) -> Start<'a>
    ensures label { result.label.now ≡ label.now }
    ensures enabled { result.enabled ≡ enabled }
    ensures flags { flags_of result ≡ option_copied enableds.entry }
{
    Start {
        label,
        enabled,
        position_enableds: enableds,
    }
}
