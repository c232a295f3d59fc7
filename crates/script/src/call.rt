// A call, as a value: what a line asks for. Its octets and the numbers of its table entry lie in what was lent to the reading of the line.

// Settings of AL1M, and the octets that they are for.
#[derive(Clone, Copy, Debug, PartialEq, Eq)]
pub struct CodingCall<'a> {
    pub width: u32,
    pub e: u32,
    pub octets: &'a [u8],
}

// The room of a payload, and how many octets are lent for it.
#[derive(Clone, Copy, Debug, PartialEq, Eq)]
pub struct MuxCall {
    pub code: u32,
    pub room: u32,
    pub lent: u32,
}

// A payload, and how many octets and units are lent for what it finishes.
#[derive(Clone, Copy, Debug, PartialEq, Eq)]
pub struct DemuxCall<'a> {
    pub code: u32,
    pub mark: bool,
    pub octets: &'a [u8],
    pub room: u32,
    pub units: u32,
}

// A packet: the form of flag that opens it, its code, mark and payload, and how many octets are lent for it.
#[derive(Clone, Copy, Debug, PartialEq, Eq)]
pub struct PackCall<'a> {
    pub opens: bool,
    pub code: u32,
    pub mark: bool,
    pub octets: &'a [u8],
    pub room: u32,
}

// A unit of AL2: its channel, whether it has a number, and its octets.
#[derive(Clone, Copy, Debug, PartialEq, Eq)]
pub struct UnitCall<'a> {
    pub channel: u16,
    pub numbered: bool,
    pub octets: &'a [u8],
}

// Calls that have no state; how many octets are lent for the answer, and how many places.
#[derive(Clone, Copy, Debug, PartialEq, Eq)]
pub enum Coding<'a> {
    Length {
        width: u32,
        e: u32,
        t: u32,
    },
    Encode {
        coding: CodingCall<'a>,
        room: u32,
    },
    Receive {
        coding: CodingCall<'a>,
        room: u32,
        places: u32,
    },
    Al1 {
        octets: &'a [u8],
    },
}

// Calls on packets of level 2: one to be written, one to be read, and the raw octets of any number.
#[derive(Clone, Copy, Debug, PartialEq, Eq)]
pub enum Packet<'a> {
    Pack(PackCall<'a>),
    Unpack { octets: &'a [u8] },
    Link { octets: &'a [u8] },
}

// A line that cannot be read.
#[derive(Clone, Copy, Debug, PartialEq, Eq)]
pub struct Malformed;

// A call.
#[derive(Clone, Copy, Debug, PartialEq, Eq)]
pub enum Call<'a> {
    Coding(Coding<'a>),
    Open { channel: u16, segmentable: bool },
    Close { channel: u16 },
    Reset { channel: u16 },
    Entry { code: u32, numbers: &'a [u16] },
    Post { channel: u16, octets: &'a [u8] },
    Mux(MuxCall),
    Demux(DemuxCall<'a>),
    Packet(Packet<'a>),
    Send { unit: UnitCall<'a>, room: u32 },
    Take(UnitCall<'a>),
}
