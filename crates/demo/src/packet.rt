// What a packet carries, and what became of the packets.
use calls::Refusal;
use packets::Packet;
use table::Code;

// What a packet carries: a multiplex code, a closing mark or none, and a payload.
#[derive(Clone, Copy)]
pub(crate) struct Pdu<'a> {
    pub code: Code,
    pub mark: bool,
    pub payload: &'a [u8],
}

impl Pdu<'_> {
    // Whether a packet that was read says what was sent.
    fn is_said(&self, read: Packet) -> bool {
        read.code == self.code && read.mark == self.mark && read.length == self.payload.len()
    }
}

// How many packets were sent; and of these how many were read, the header undamaged, through wrong bits of the header, or as another packet
// than was sent; and how many were refused, by refusal: the header, the closing flag, the length.
#[derive(Clone, Copy, Debug, Default, PartialEq, Eq)]
pub(crate) struct Counts {
    pub sent: usize,
    pub undamaged: usize,
    pub through_wrong_bits: usize,
    pub as_another: usize,
    pub bad_header: usize,
    pub bad_form: usize,
    pub bad_length: usize,
}

impl Counts {
    // Counts a packet that was sent so, came with so many wrong bits in its header, and was read so.
    pub(crate) fn count(&mut self, sent: &Pdu, wrong: u32, reading: Result<Packet, Refusal>) {
        self.sent = self.sent.saturating_add(1);
        let became = match reading {
            Ok(read) if !sent.is_said(read) => &mut self.as_another,
            Ok(_) if wrong == 0 => &mut self.undamaged,
            Ok(_) => &mut self.through_wrong_bits,
            Err(Refusal::BadHeader) => &mut self.bad_header,
            Err(Refusal::BadLength) => &mut self.bad_length,
            Err(_) => &mut self.bad_form,
        };
        *became = became.saturating_add(1);
    }

    // How many packets were refused.
    pub(crate) fn refused(&self) -> usize {
        self.bad_header
            .saturating_add(self.bad_form)
            .saturating_add(self.bad_length)
    }
}
