//! What a device answered.
use oca_types::Params;

/// What a device answered to a command (AES70-3, response): status, ParamCount and the bytes of the parameters.
#[derive(Debug, Drop)]
pub struct Answer {
    /// The number of the status, 0 to 255 (AES70-2, OcaStatus): 0 is OK.
    pub status: u8,
    /// ParamCount, 0 to 255: how many parameters the device says that there are.
    pub count: u8,
    /// The bytes of the parameters: at most 1,452. They are not checked.
    pub params: Params,
}
