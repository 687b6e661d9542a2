//! Datagrams of OCP.1 over UDP (AES70-3): lists of PDUs with commands, responses or keep-alives.
//!
//! Begin with [`check`], which says whether bytes are a well-formed datagram and, where they are not, which check
//! failed first and where. A [`Datagram`] that it gives hands out its messages in order; their parameters are slices of
//! the bytes. The `write_` calls append a PDU of one message to a packet, [`extend_response`] adds a response to a
//! packet's PDU where [`holds_responses`] says that it is of responses, and [`replace_response`] writes one over what a
//! packet held. Nothing here takes memory, opens a socket or reads a clock, and what a command asks for is the matter
//! of other crates.
#![tactic(auto)]

mod checking;
mod datagram;
mod fault;
mod fields;
mod laws;
mod message;
mod messages;
mod writing;

pub use checking::check;
pub use datagram::Datagram;
pub use fault::{PduFault, PduFaultKind, WriteFault};
pub use laws::{
    law_datagram_or_fault, law_no_fault_of_a_datagram, law_one_first_fault,
    law_one_list_of_messages, law_reading, law_written_is_read_back,
};
pub use message::{Form, Message};
pub use messages::Messages;
pub use writing::{
    extend_response, extend_response_of, holds_responses, replace_response, replace_response_of,
    write_command, write_keepalive, write_response,
};
