//! Laws of the encodings, of the first fault and of reading. Nothing here runs: each contract is its law.
ghost use Rattle.oca_pdu.specs.Laws.{OneListOfMessages, OneFirstFault, NoFaultOfADatagram, DatagramOrFault};
ghost use Rattle.oca_pdu.specs.Laws.{ReadingIsExact, WrittenIsReadBack};

/// Law: bytes that are a datagram have only one list of messages (AES70-3). If the bytes can be divided into PDUs in
/// two ways, the messages of the PDUs are the same in both ways, in the same order. The law holds for all bytes. The
/// function states this law as its contract, and does nothing at run time.
pub fn law_one_list_of_messages()
    ensures { OneListOfMessages }
{}

/// Law: no bytes have two different first faults. The *first fault* of bytes is the first check of
/// [`check`](crate::check) that fails, with the offset in bytes where it fails. The law holds for all bytes. The
/// function states this law as its contract, and does nothing at run time.
pub fn law_one_first_fault()
    ensures { OneFirstFault }
{}

/// Law: bytes that are a well-formed datagram (AES70-3) have no first fault. The *first fault* of bytes is the first
/// check of [`check`](crate::check) that fails, with the offset in bytes where it fails. The law holds for all bytes.
/// The function states this law as its contract, and does nothing at run time.
pub fn law_no_fault_of_a_datagram()
    ensures { NoFaultOfADatagram }
{}

/// Law: each list of bytes is a well-formed datagram (AES70-3), or has a first fault. The *first fault* of bytes is the
/// first check of [`check`](crate::check) that fails, with the offset in bytes where it fails. The empty list has the
/// fault `Empty`. The function states this law as its contract, and does nothing at run time.
pub fn law_datagram_or_fault()
    ensures { DatagramOrFault }
{}

/// Law: reading a list of bytes gives exactly what the bytes are. [`check`](crate::check) returns what this reading
/// gives. The law holds for each list of bytes. The function states this law as its contract, and does nothing at run
/// time.
/// - If the bytes are a well-formed datagram (AES70-3), reading gives exactly its messages: commands, responses and
///   keep-alives, in order.
/// - If they are not, reading gives exactly their first fault: the first check that fails, with the offset in bytes
///   where it fails.
pub fn law_reading()
    ensures { ReadingIsExact }
{}

/// Law: a PDU that was appended to others in a datagram is read back after the messages of the others (AES70-3). The
/// premise is that the bytes are a well-formed datagram of some PDUs and one more. Reading the bytes gives the messages
/// of the first PDUs, in order, and then those of the last PDU. The function states this law as its contract, and does
/// nothing at run time.
pub fn law_written_is_read_back()
    ensures { WrittenIsReadBack }
{}
