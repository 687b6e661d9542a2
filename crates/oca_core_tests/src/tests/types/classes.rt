//! Classes and statuses by their numbers, and their names.
use crate::tests::{Row, Said};
use oca_types::{Class, Status, class_fields};

/// A class, the fields of its identifier, and its name.
pub struct IsClass(Class, &'static [u16], &'static str);

pub const CLASSES: &[IsClass] = &[
    IsClass(Class::Block, &[1, 1, 3], "OcaBlock"),
    IsClass(Class::Mute, &[1, 1, 1, 2], "OcaMute"),
    IsClass(Class::Polarity, &[1, 1, 1, 3], "OcaPolarity"),
    IsClass(Class::Switch, &[1, 1, 1, 4], "OcaSwitch"),
    IsClass(Class::Boolean, &[1, 1, 1, 1, 1], "OcaBooleanActuator"),
    IsClass(Class::Int8, &[1, 1, 1, 1, 2], "OcaInt8Actuator"),
    IsClass(Class::Int16, &[1, 1, 1, 1, 3], "OcaInt16Actuator"),
    IsClass(Class::Int32, &[1, 1, 1, 1, 4], "OcaInt32Actuator"),
    IsClass(Class::Int64, &[1, 1, 1, 1, 5], "OcaInt64Actuator"),
    IsClass(Class::Uint8, &[1, 1, 1, 1, 6], "OcaUint8Actuator"),
    IsClass(Class::Uint16, &[1, 1, 1, 1, 7], "OcaUint16Actuator"),
    IsClass(Class::Uint32, &[1, 1, 1, 1, 8], "OcaUint32Actuator"),
    IsClass(Class::Uint64, &[1, 1, 1, 1, 9], "OcaUint64Actuator"),
];

impl Row for IsClass {
    /// Whether the class has these fields and this name, and prints the name.
    fn agrees(&self, said: &mut Said) -> bool {
        said.same(class_fields(self.0).as_slice(), self.1)
            && said.same(self.0.name(), self.2)
            && said.prints(&self.0, self.2)
    }
}

/// A status, its number and its name (AES70-2).
pub struct IsStatus(Status, u8, &'static str);

pub const STATUSES: &[IsStatus] = &[
    IsStatus(Status::Ok, 0, "OK"),
    IsStatus(Status::ProtocolVersionError, 1, "ProtocolVersionError"),
    IsStatus(Status::DeviceError, 2, "DeviceError"),
    IsStatus(Status::Locked, 3, "Locked"),
    IsStatus(Status::BadFormat, 4, "BadFormat"),
    IsStatus(Status::BadOno, 5, "BadONo"),
    IsStatus(Status::ParameterError, 6, "ParameterError"),
    IsStatus(Status::ParameterOutOfRange, 7, "ParameterOutOfRange"),
    IsStatus(Status::NotImplemented, 8, "NotImplemented"),
    IsStatus(Status::InvalidRequest, 9, "InvalidRequest"),
    IsStatus(Status::ProcessingFailed, 10, "ProcessingFailed"),
    IsStatus(Status::BadMethod, 11, "BadMethod"),
    IsStatus(Status::PartiallySucceeded, 12, "PartiallySucceeded"),
    IsStatus(Status::Timeout, 13, "Timeout"),
    IsStatus(Status::BufferOverflow, 14, "BufferOverflow"),
];

impl Row for IsStatus {
    /// Whether the status has this number and this name, and prints the name.
    fn agrees(&self, said: &mut Said) -> bool {
        said.same(self.0.number(), self.1)
            && said.same(Status::with_number(self.1), Some(self.0))
            && said.same(self.0.name(), self.2)
            && said.prints(&self.0, self.2)
    }
}
