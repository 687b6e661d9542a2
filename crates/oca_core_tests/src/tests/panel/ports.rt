//! A port of one's own and the first handle by the clock.
use crate::tests::{Row, Said};
use oca_panel::OwnPort;
use oca_types::Handle;

/// Seconds and microseconds since the beginning of 1970; the port whose turn it is, and the first handle.
pub struct Turn(u64, u32, u16, u32);

impl Row for Turn {
    /// Whether it is this port's turn, and the handle is the first.
    fn agrees(&self, said: &mut Said) -> bool {
        let own = OwnPort::at(self.0, self.1);
        let other = if self.2 == 65001 { 65002 } else { 65001 };
        said.same(
            (own.port, own.other, own.first_handle),
            (self.2, other, Handle(self.3)),
        )
    }
}

/// The ports take turns, and handles rise in each.
pub const TURNS: &[Turn] = &[
    Turn(0, 0, 65001, 0),
    Turn(0, 9, 65001, 0),
    Turn(0, 10, 65001, 1),
    Turn(1, 999_999, 65001, 199_999),
    Turn(21_474, 836_479, 65001, 2_147_483_647),
    Turn(21_474, 836_480, 65002, 0),
    Turn(42_949, 672_959, 65002, 2_147_483_647),
    Turn(42_949, 672_960, 65001, 0),
    Turn(1_784_000_000, 0, 65002, 2_090_909_696),
    Turn(18_446_744_073_709_551_615, 999_999, 65002, 2_147_483_647),
];
