//! What a device has room for: the longest datagram, and the longest reply.
ghost use Rattle.std.specs.Prelude.{◌≡◌, ◌+◌, ◌<◌, ◌≤◌, length};
ghost use Rattle.oca_types.specs.Replies.{reply_in};
ghost use Rattle.oca_types.specs.Sizes.{most_command_parameter_bytes, most_parameter_bytes};
ghost use Rattle.oca_pdu.specs.declared.fault.PduFaultKind.TheVariants.{TooLong};
ghost use Rattle.oca_device.specs.Rooms.{is_short_enough, shortened_reply};
ghost use Rattle.oca_device.specs.PrivateMade.{reply_made};

use oca_pdu::{PduFault, PduFaultKind};
use oca_types::{MOST_COMMAND_PARAMETER_BYTES, MOST_PARAMETER_BYTES, Params, ReplyParts, Status};

/// A datagram with one command has so many bytes beside those of its parameters.
const BESIDE_PARAMETERS: usize = 27;

/// The reply of the last execution, whatever room a device has. It has no model: it is read where it lies.
#[derive(Drop)]
pub(crate) struct Made {
    pub(crate) status: Status,
    pub(crate) count: u8,
    pub(crate) params: Params,
}

/// Whether the device takes so many bytes.
#[inline(always)]
pub(crate) fn is_taken<const COMMAND: usize>(bytes: &[u8]) -> bool
    ensures { result ≡ is_short_enough COMMAND bytes.now }
{
    COMMAND >= MOST_COMMAND_PARAMETER_BYTES || bytes.len() <= COMMAND + BESIDE_PARAMETERS
}

/// The fault of a datagram that is longer.
pub(crate) fn too_long<const COMMAND: usize>() -> PduFault
    requires { COMMAND < most_command_parameter_bytes }
    ensures { result ≡ record { kind = TooLong; at = COMMAND + 27 } }
{
    PduFault {
        kind: PduFaultKind::TooLong,
        at: (COMMAND + BESIDE_PARAMETERS) as u16,
    }
}

/// The reply that was made; BufferOverflow, if its parameters are more bytes than there is room for.
#[inline(always)]
pub(crate) fn shortened<const ANSWER: usize>(made: &Made) -> ReplyParts<'_>
    ensures shortened { reply_in result ≡ shortened_reply ANSWER (reply_made made.now) }
    ensures short { length result.params.now ≤ ANSWER }
    ensures most { length result.params.now ≤ most_parameter_bytes }
{
    let params = made.params.as_slice();
    if ANSWER < MOST_PARAMETER_BYTES && params.len() > ANSWER {
        return ReplyParts {
            status: Status::BufferOverflow,
            count: 0,
            params: &params[..0],
        };
    }
    ReplyParts {
        status: made.status,
        count: made.count,
        params,
    }
}
