// The library's functions as C calls them: include/kyteblossom.h declares these names. Each is the library's function of that name, and says what
// that one says.
#![tactic(auto)]

ghost use Rattle.std.specs.Prelude.{◌≡◌};
ghost use Rattle.adaptation.specs.AL1M.{sent_length};
ghost use Rattle.packets.specs.Packet.{read};
ghost use Rattle.kyteblossom.specs.Answer.{answer, EncodeIs, ReceiveIs, RecordWriteIs, RecordReadIs, packet_says, PacketWriteIs};

// How many octets a unit is sent in, or minus the refusal's number.
#[unsafe(no_mangle)]
pub extern "C" fn kyte_length(unit: usize, width: u32, e: u32) -> i32
    ensures { result ≡ answer (sent_length unit width e) }
{
    kyteblossom::kyte_length(unit, width, e)
}

// Encodes a unit: how many octets of `sent` were written, or minus the refusal's number.
#[unsafe(no_mangle)]
pub extern "C" fn kyte_encode(unit: &[u8], width: u32, e: u32, sent: &mut [u8]) -> i32
    ensures { EncodeIs width e unit.now sent.old result sent.new }
{
    kyteblossom::kyte_encode(unit, width, e, sent)
}

// Receives a word: badge + 256 changed + 65,536 unit length, or minus the refusal's number. The changed places are at the front of `places`.
#[unsafe(no_mangle)]
pub extern "C" fn kyte_receive(
    received: &[u8],
    width: u32,
    e: u32,
    repair: &mut [u8],
    places: &mut [u8],
) -> i32
    ensures { ReceiveIs width e received.now (record { repair = repair.old; places = places.old }) result
        (record { repair = repair.new; places = places.new }) }
{
    kyteblossom::kyte_receive(received, width, e, repair, places)
}

// Writes the record of a list of units: how many octets of `output` were written, or minus the refusal's number.
#[unsafe(no_mangle)]
pub extern "C" fn kyte_record_write(units: &[u16], content: &[u8], output: &mut [u8]) -> i32
    ensures { RecordWriteIs units.now content.now output.old result output.new }
{
    kyteblossom::kyte_record_write(units, content, output)
}

// Reads a record: how many units there are, or minus the refusal's number.
#[unsafe(no_mangle)]
pub extern "C" fn kyte_record_read(input: &[u8], units: &mut [u16], content: &mut [u8]) -> i32
    ensures { RecordReadIs input.now units.old content.old result units.new content.new }
{
    kyteblossom::kyte_record_read(input, units, content)
}

// Writes a packet: how many octets of `packet` were written, or minus the refusal's number. A flag is plain for 0, and else complemented.
#[unsafe(no_mangle)]
pub extern "C" fn kyte_packet_write(
    opens: u32,
    code: u32,
    mark: u32,
    payload: &[u8],
    packet: &mut [u8],
) -> i32
    ensures { PacketWriteIs opens code mark payload.now packet.old result packet.new }
{
    kyteblossom::kyte_packet_write(opens, code, mark, payload, packet)
}

// Reads the packet at the front of the octets: code + 16 mark + 256 payload length, or minus the refusal's number.
#[unsafe(no_mangle)]
pub extern "C" fn kyte_packet_read(octets: &[u8]) -> i32
    ensures { result ≡ answer (packet_says (read octets.now)) }
{
    kyteblossom::kyte_packet_read(octets)
}
