//! A device's objects as a text: one object a line, as a maker writes it.
//!
//! [`tree_from_text`] builds the tree of a text, or names the first line with a fault. A line is
//!
//! ```text
//! NUMBER CONTAINER CLASS .. LOCKABLE ROLE
//! ```
//!
//! with single spaces; a field with spaces stands in quotes. `CLASS` is `block`, `mute`, `polarity`, `switch`,
//! `boolean`, `int8` to `int64` or `uint8` to `uint64`. Behind it stands what an object of the class is set to: nothing
//! for a block; `muted` or `unmuted`; `non-inverted` or `inverted`; for a switch the names of its positions between
//! commas and that of the current one; `on` or `off`; for an integer the least, the greatest and the setting.
//! `LOCKABLE` is `lockable` or `no-lock`. Empty lines and lines that begin with `#` are skipped.
#![tactic(auto)]

mod class_word;
mod fault;
mod field;
mod laws;
mod line;
mod quoted;
mod stored;
mod text;
mod value;
mod writing;

pub use fault::TreeFault;
pub use laws::law_of_texts;
pub use oca_script::ObjectFault;
pub use text::tree_from_text;
pub use writing::print_tree;
