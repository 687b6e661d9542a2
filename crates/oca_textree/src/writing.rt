//! A tree written as a text.
ghost use Rattle.std.specs.Prelude.{◌≡◌, ◌+◌, ◌*◌, ◌≤◌, ◌++◌, [], ◌∷◌, length, not, Some};
ghost use Rattle.std.specs.Fmt.{signed_decimal};
ghost use Rattle.std.specs.Option.{option_map};
ghost use Rattle.std.specs.List.{list_any};
ghost use Rattle.oca_script.specs.Ends.{output};
ghost use Rattle.oca_script.specs.Printing.{Prints};
ghost use Rattle.oca_tree.specs.Copies.{stored_in};
ghost use Rattle.oca_textree.specs.Written.{is_plain as is_plain_text, is_plain_name as is_plain_part, text_field};
ghost use Rattle.oca_textree.specs.Written.{flags_field, holds_comma, holds_mark, joined_names, limit_field, lock_word};
ghost use Rattle.oca_textree.specs.Written.{name_part, names_field, number_fields, place_fields, range_fields, set_fields};
ghost use Rattle.oca_textree.specs.Written.{start_fields, text_of, truth_word, value_fields};
ghost use Rattle.oca_textree.specs.PrivateWritten.{end_text, few_flags, Fits, object_text, root_text, stored_flags};
ghost use Rattle.oca_textree.specs.PrivateWritten.{tree_line_text};

use super::class_word::{space_behind, word};
use oca_script::escape::has_hidden;
use oca_script::{Printer, Sink, WriteFailed};
use oca_tree::{ObjectInfo, Setting, Start, Tree};
use oca_types::{Class, Text};

/// Room for a line.
const LINE_ROOM: usize = 4000;

/// Whether a control character or a quote stands in a text.
fn has_mark(text: &[u8]) -> bool
    ensures { result ≡ holds_mark text.now }
{
    text.iter().any(|byte| *byte < 32 || *byte == b'"')
}

/// Whether a comma stands in a text.
fn has_comma(text: &[u8]) -> bool
    ensures { result ≡ holds_comma text.now }
{
    text.iter().any(|byte| *byte == b',')
}

/// Whether a text is written in quotes.
fn is_plain(text: &str) -> bool
    ensures { result ≡ is_plain_text text.now }
{
    if has_hidden(text) {
        return false;
    }
    !has_mark(text.as_bytes())
}

/// Whether a position's name is written as it is.
fn is_plain_name(name: &str) -> bool
    ensures { result ≡ is_plain_part name.now }
{
    if !is_plain(name) {
        return false;
    }
    !has_comma(name.as_bytes())
}

/// Adds a text to what the printer holds: in quotes, or in hexadecimal digits.
#[tactic(auto, unfolding(crate::specs::Written::text_field))]
fn put_text<W: Sink>(text: &str, printer: &mut Printer<W>)
    requires short { length text.now ≤ 64 }
    requires room { length printer.old.held + 130 ≤ 8192 }
    ensures value { printer.new
        ≡ output printer.old.contents (printer.old.held ++ text_field text.now) printer.old.failed }
    ensures len { length printer.new.held ≤ length printer.old.held + 130 }
{
    if is_plain(text) {
        printer.put(b"\"");
        printer.put(text.as_bytes());
        printer.put(b"\"");
    } else {
        printer.put_hex(text.as_bytes());
    }
}

/// Adds the name of a position.
fn put_name<W: Sink>(name: &str, plain: bool, printer: &mut Printer<W>)
    requires short { length name.now ≤ 64 }
    requires room { length printer.old.held + 129 ≤ 8192 }
    ensures value { printer.new
        ≡ output printer.old.contents (printer.old.held ++ name_part plain name.now) printer.old.failed }
    ensures len { length printer.new.held ≤ length printer.old.held + 129 }
{
    if plain {
        printer.put(name.as_bytes());
    } else {
        printer.put_hex(name.as_bytes());
    }
}

/// Adds names of positions with commas between them.
fn put_joined<W: Sink>(names: &[Text], plain: bool, printer: &mut Printer<W>)
    requires few { length names.now ≤ 16 }
    requires room { length printer.old.held + 130 * 17 ≤ 8192 }
    ensures value { printer.new
        ≡ output printer.old.contents
        (printer.old.held ++ joined_names (name_part plain) names.now) printer.old.failed }
    ensures len { length printer.new.held ≤ length printer.old.held + 130 * 17 }
{
    let Some((first, more)) = names.split_first() else {
        return;
    };
    put_name(first.as_str(), plain, printer);
    for name in more {
        printer.put(b",");
        put_name(name.as_str(), plain, printer);
    }
}

/// Whether a name is not written as it is.
fn has_odd_name(names: &[Text]) -> bool
    ensures { result ≡ list_any (λ n. not (is_plain_part n)) names.now }
{
    names.iter().any(|name| !is_plain_name(name.as_str()))
}

/// Adds the names of a switch's positions: in quotes where each is plain, or each in hexadecimal digits.
#[tactic(auto, unfolding(crate::specs::Written::names_field))]
fn put_names<W: Sink>(names: &[Text], printer: &mut Printer<W>)
    requires few { length names.now ≤ 16 }
    requires room { length printer.old.held + 2300 ≤ 8192 }
    ensures value { printer.new
        ≡ output printer.old.contents (printer.old.held ++ names_field names.now) printer.old.failed }
    ensures len { length printer.new.held ≤ length printer.old.held + 2300 }
{
    if has_odd_name(names) {
        put_joined(names, false, printer);
    } else {
        printer.put(b"\"");
        put_joined(names, true, printer);
        printer.put(b"\"");
    }
}

/// Adds a digit for each position of a switch: whether it is enabled.
fn put_flags<W: Sink>(start: Option<Start<'_>>, printer: &mut Printer<W>)
    requires few { few_flags (stored_flags (option_map stored_in start)) ≤ 16 }
    requires room { length printer.old.held + 16 ≤ 8192 }
    ensures value { printer.new
        ≡ output printer.old.contents
        (printer.old.held ++ flags_field (stored_flags (option_map stored_in start.entry))) printer.old.failed }
    ensures len { length printer.new.held ≤ length printer.old.held + 16 }
{
    let Some(
        Start {
            position_enableds: Some(flags),
            ..
        },
    ) = start
    else {
        return;
    };
    for flag in flags {
        printer.put(if *flag { b"1" } else { b"0" });
    }
}

/// Adds an integer.
fn put_integer<W: Sink>(value: i128, printer: &mut Printer<W>)
    requires room { length printer.old.held + 40 ≤ 8192 }
    ensures value { printer.new
        ≡ output printer.old.contents (printer.old.held ++ signed_decimal value) printer.old.failed }
    ensures len { length printer.new.held ≤ length printer.old.held + 40 }
{
    let mut digits = itoa::Buffer::new();
    printer.put(digits.format(value).as_bytes());
}

/// Adds a limit of an integer.
fn put_limit<W: Sink>(value: i128, printer: &mut Printer<W>)
    requires room { length printer.old.held + 41 ≤ 8192 }
    ensures value { printer.new
        ≡ output printer.old.contents (printer.old.held ++ limit_field value) printer.old.failed }
    ensures len { length printer.new.held ≤ length printer.old.held + 41 }
{
    put_integer(value, printer);
    printer.put(b" ");
}

/// Adds an integer behind its limits.
fn put_range<W: Sink>(least: i128, greatest: i128, setting: i128, printer: &mut Printer<W>)
    requires room { length printer.old.held + 122 ≤ 8192 }
    ensures value { printer.new
        ≡ output printer.old.contents (printer.old.held ++ range_fields least greatest setting) printer.old.failed }
    ensures len { length printer.new.held ≤ length printer.old.held + 122 }
{
    put_limit(least, printer);
    put_limit(greatest, printer);
    put_integer(setting, printer);
}

/// Adds the limits and the setting of an integer.
fn put_numbers<W: Sink>(setting: Option<Setting>, printer: &mut Printer<W>)
    requires room { length printer.old.held + 122 ≤ 8192 }
    ensures value { printer.new
        ≡ output printer.old.contents (printer.old.held ++ number_fields setting) printer.old.failed }
    ensures len { length printer.new.held ≤ length printer.old.held + 122 }
{
    if let Some(
        Setting::Number {
            setting,
            least,
            greatest,
        },
    ) = setting
    {
        put_range(least, greatest, setting, printer);
    }
}

/// Adds the word of a Boolean.
fn put_truth<W: Sink>(truth: bool, printer: &mut Printer<W>)
    requires { length printer.old.held + 3 ≤ 8192 }
    ensures value { printer.new
        ≡ output printer.old.contents (printer.old.held ++ truth_word truth) printer.old.failed }
    ensures len { length printer.new.held ≤ length printer.old.held + 3 }
{
    printer.put(if truth { b"on".as_slice() } else { b"off" });
}

/// Adds how an object of the class is set.
#[tactic(auto, unfolding(crate::specs::Written::set_fields))]
fn put_setting<W: Sink>(
    class: Class,
    setting: Option<Setting>,
    names: &[Text],
    start: Option<Start<'_>>,
    printer: &mut Printer<W>,
)
    requires names { length names.now ≤ 16 }
    requires flags { few_flags (stored_flags (option_map stored_in start)) ≤ 16 }
    requires room { length printer.old.held + 2350 ≤ 8192 }
    ensures value { printer.new
        ≡ output printer.old.contents
        (printer.old.held ++ set_fields class setting names.now (stored_flags (option_map stored_in start.entry)))
        printer.old.failed }
    ensures len { length printer.new.held ≤ length printer.old.held + 2350 }
{
    match (class, setting) {
        (Class::Block, _) => {}
        (Class::Mute, Some(Setting::State(1))) => printer.put(b"muted"),
        (Class::Mute, _) => printer.put(b"unmuted"),
        (Class::Polarity, Some(Setting::State(1))) => printer.put(b"non-inverted"),
        (Class::Polarity, _) => printer.put(b"inverted"),
        (Class::Boolean, Some(Setting::Truth(truth))) => put_truth(truth, printer),
        (Class::Boolean, _) => put_truth(false, printer),
        (Class::Switch, _) => {
            put_flags(start, printer);
            printer.put(b" ");
            put_names(names, printer);
            printer.put(b" ");
            if let Some(Setting::Position(position)) = setting {
                printer.put_number(u64::from(position));
            }
        }
        _ => put_numbers(setting, printer),
    }
}

/// Adds whether an object is enabled, and its label.
fn put_start<W: Sink>(start: &Start<'_>, printer: &mut Printer<W>)
    requires { length printer.old.held + 140 ≤ 8192 }
    ensures value { printer.new
        ≡ output printer.old.contents
        (printer.old.held ++ start_fields start.now.enabled start.now.label.now) printer.old.failed }
    ensures len { length printer.new.held ≤ length printer.old.held + 140 }
{
    let label = if start.label.len() > 64 {
        ""
    } else {
        start.label
    };
    put_truth(start.enabled, printer);
    printer.put(b" ");
    put_text(label, printer);
}

/// The word that says whether an object can be locked, between spaces.
fn lock_part(lockable: bool) -> &'static [u8]
    ensures value { result.now ≡ 32 ∷ lock_word lockable ++ 32 ∷ [] }
    ensures short { length result.now ≤ 10 }
{
    if lockable {
        b" lockable "
    } else {
        b" no-lock "
    }
}

/// Adds the end of an object's line.
fn put_end<W: Sink>(
    lockable: Option<bool>,
    role: &Text,
    start: Option<Start<'_>>,
    printer: &mut Printer<W>,
)
    requires { length printer.old.held + 300 ≤ 8192 }
    ensures value { printer.new
        ≡ output printer.old.contents
        (printer.old.held ++ end_text lockable role.now (option_map stored_in start.entry)) printer.old.failed }
    ensures len { length printer.new.held ≤ length printer.old.held + 300 }
{
    match (lockable, start) {
        (Some(lockable), Some(start)) => {
            printer.put(lock_part(lockable));
            put_text(role.as_str(), printer);
            printer.put(b" ");
            put_start(&start, printer);
        }
        _ => {}
    }
}

/// Adds an object's number and its container's.
fn put_place<W: Sink>(ono: u32, container: u32, printer: &mut Printer<W>)
    requires { length printer.old.held + 60 ≤ 8192 }
    ensures value { printer.new
        ≡ output printer.old.contents (printer.old.held ++ place_fields ono container) printer.old.failed }
    ensures len { length printer.new.held ≤ length printer.old.held + 60 }
{
    printer.put(b"object ");
    printer.put_number(u64::from(ono));
    printer.put(b" ");
    printer.put_number(u64::from(container));
    printer.put(b" ");
}

/// Adds an object's class and how it is set.
#[tactic(auto, unfolding(crate::specs::Written::class_before))]
fn put_value<W: Sink>(
    class: Class,
    setting: Option<Setting>,
    names: &[Text],
    start: Option<Start<'_>>,
    printer: &mut Printer<W>,
)
    requires names { length names.now ≤ 16 }
    requires flags { few_flags (stored_flags (option_map stored_in start)) ≤ 16 }
    requires room { length printer.old.held + 2400 ≤ 8192 }
    ensures value { printer.new
        ≡ output printer.old.contents
        (printer.old.held ++ value_fields class setting names.now (stored_flags (option_map stored_in start.entry)))
        printer.old.failed }
    ensures len { length printer.new.held ≤ length printer.old.held + 2400 }
{
    printer.put(word(class));
    printer.put(space_behind(class));
    put_setting(class, setting, names, start, printer);
}

/// Adds the line of an object that is in a container.
fn put_object<W: Sink>(tree: &Tree, info: &ObjectInfo, printer: &mut Printer<W>)
    requires fits { Fits tree.now info.now.ono.0 }
    requires room { length printer.old.held + 3000 ≤ 8192 }
    ensures value { printer.new
        ≡ output printer.old.contents (printer.old.held ++ object_text tree.now info.now) printer.old.failed }
    ensures len { length printer.new.held ≤ length printer.old.held + 3000 }
{
    let ono = info.ono;
    let start = tree.start_of(ono);
    let setting = tree.setting_of(ono);
    let names = tree.position_names_of(ono);
    put_place(ono.0, info.container.0, printer);
    put_value(info.class, setting, names, start, printer);
    put_end(tree.is_lockable(ono), &info.role, start, printer);
}

/// Adds the line of the root.
fn put_root<W: Sink>(start: Option<Start<'_>>, printer: &mut Printer<W>)
    requires { length printer.old.held + 200 ≤ 8192 }
    ensures value { printer.new
        ≡ output printer.old.contents
        (printer.old.held ++ root_text (option_map stored_in start.entry)) printer.old.failed }
    ensures len { length printer.new.held ≤ length printer.old.held + 200 }
{
    if let Some(start) = start {
        printer.put(b"root ");
        put_start(&start, printer);
    }
}

/// Adds the line of an object with its line feed.
fn put_line<W: Sink>(tree: &Tree, info: &ObjectInfo, printer: &mut Printer<W>)
    requires fits { Fits tree.now info.now.ono.0 }
    requires room { length printer.old.held + 4000 ≤ 8192 }
    ensures { printer.new
        ≡ output printer.old.contents (printer.old.held ++ tree_line_text tree.now info.now) printer.old.failed }
{
    if info.container.0 == 0 {
        put_root(tree.start_of(info.ono), printer);
    } else {
        put_object(tree, info, printer);
    }
    printer.put(b"\n");
}

/// Prints the line of an object.
fn print_line<W: Sink>(
    tree: &Tree,
    info: &ObjectInfo,
    printer: &mut Printer<W>,
) -> Result<(), WriteFailed>
    requires { Fits tree.now info.now.ono.0 }
    ensures { Prints result printer.old printer.new (tree_line_text tree.now info.now) }
{
    printer.make_room(LINE_ROOM)?;
    put_line(tree, info, printer);
    Ok(())
}

/// Prints a tree as a text that [`tree_from_text`](crate::tree_from_text) reads: one line for each object, in order of
/// adding. The line of the root is `root ENABLED LABEL`. The line of any other object is `object NUMBER CONTAINER CLASS
/// .. LOCKABLE ROLE ENABLED LABEL`. The text does not contain the locks of objects, and does not say whose hardware
/// refuses changes. `tree` is unchanged. The call takes no memory.
///
/// `printer` gets the text. It stores up to 8,192 bytes before it writes them to its sink. A part of the text can still
/// wait in the printer when the call returns. [`Printer::flush`] writes this part.
///
/// The only refusal is `WriteFailed` if a write to the sink failed. Then perhaps only the beginning of the bytes that
/// waited and of the text was written, and the rest is lost.
#[tactic(auto, unfolding(crate::specs::Written::text_of))]
pub fn print_tree<W: Sink>(tree: &Tree, printer: &mut Printer<W>) -> Result<(), WriteFailed>
    ensures { Prints result printer.old printer.new (text_of tree.now) }
{
    for i in 0..tree.len() {
        let Some(info) = tree.object_at(i) else {
            return Ok(());
        };
        print_line(tree, &info, printer)?;
    }
    Ok(())
}
