//! Texts as they are printed.
use crate::tests::{Row, Said};
use oca_script::Escaped;
use oca_script::escape::has_hidden;
use oca_types::Text;

/// A text, what is printed of it, and whether a character of it is hidden.
pub struct Printed(&'static str, &'static str, bool);

impl Row for Printed {
    /// Whether the text is printed so.
    fn agrees(&self, said: &mut Said) -> bool {
        match Text::new(self.0) {
            Some(text) => {
                said.same_text(Escaped::of(text.as_str()).as_bytes(), self.1.as_bytes())
                    && said.same(has_hidden(text.as_str()), self.2)
            }
            None => false,
        }
    }
}

// Each limit of what is hidden, and its neighbours.
pub const TEXTS: &[Printed] = &[
    Printed("", "", false),
    Printed("Mic", "Mic", false),
    Printed(
        "Gr\u{fc}n \u{20ac} \u{1f3a4}",
        "Gr\u{fc}n \u{20ac} \u{1f3a4}",
        false,
    ),
    Printed("a\nb\rc\td", "a\\nb\\rc\\td", true),
    Printed(
        "Mic\n4098 unmuted\x1b[2J",
        "Mic\\n4098 unmuted\\u{1b}[2J",
        true,
    ),
    Printed("a\\b", "a\\\\b", false),
    Printed("\\n", "\\\\n", false),
    Printed("\\u{9b}", "\\\\u{9b}", false),
    Printed("\0\x01\x1f ~", "\\u{00}\\u{01}\\u{1f} ~", true),
    Printed(
        "~\x7f\u{80}\u{9f}\u{a0}",
        "~\\u{7f}\\u{80}\\u{9f}\u{a0}",
        true,
    ),
    Printed("\u{61b}\u{61c}\u{61d}", "\u{61b}\\u{061c}\u{61d}", true),
    Printed(
        "\u{200d}\u{200e}\u{200f}\u{2010}",
        "\u{200d}\\u{200e}\\u{200f}\u{2010}",
        true,
    ),
    Printed(
        "\u{2027}\u{2028}\u{2029}\u{202a}",
        "\u{2027}\\u{2028}\\u{2029}\\u{202a}",
        true,
    ),
    Printed("\u{202e}\u{202f}", "\\u{202e}\u{202f}", true),
    Printed(
        "\u{2065}\u{2066}\u{2069}\u{206a}",
        "\u{2065}\\u{2066}\\u{2069}\u{206a}",
        true,
    ),
];
