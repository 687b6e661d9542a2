//! Why a change at the device's own front was refused, beside that of a setting.

use thiserror::Error;

/// Why a change at the device's local front panel was refused: the first fault in this order that applies. No object is
/// then changed. The numbers are promised.
#[derive(Clone, Copy, Debug, PartialEq, Eq, Error)]
pub enum FrontFault {
    /// No object has the number.
    #[error("there is no such object")]
    NoObject = 1,
    /// The label has more than 64 bytes.
    #[error("the label has more than 64 bytes")]
    BadLabel = 2,
    /// The object is not locked.
    #[error("the object is not locked")]
    NotLocked = 3,
}

const _: () = prove!(FrontFault::NoObject as u8 == 1);

const _: () = prove!(FrontFault::BadLabel as u8 == 2);

const _: () = prove!(FrontFault::NotLocked as u8 == 3);
