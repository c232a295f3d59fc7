// What a host in C calls: numbers and octet buffers, nothing else. kyteblossom_c exports each public function under its name.
#![tactic(auto)]

ghost use Rattle.std.specs.Prelude.{◌≡◌, ◌≤◌, ◌<◌, ◌^◌};
ghost use Rattle.std.specs.Result.{ForOk};
ghost use Rattle.calls.specs.Refusal.{says};
ghost use Rattle.adaptation.specs.AL1M.{sent_length};
ghost use Rattle.packets.specs.Packet.{read};
ghost use Rattle.kyteblossom.specs.Answer.{answer, packed, EncodeIs, ReceiveIs, RecordWriteIs, RecordReadIs, packet_number, packet_says, PacketWriteIs};

use adaptation::al1m;
use adaptation::al1m::Judgement;
use calls::Refusal;
use packets::Packet;
use table::Code;

// What was answered as the host reads it: a number, or minus the refusal's.
fn answer(answered: Result<usize, Refusal>) -> i32
    requires { ForOk answered (λ n. n < 2 ^ 31) }
    ensures { result ≡ answer (says answered) }
{
    match answered {
        Ok(n) => n as i32,
        Err(refused) => -i32::from(u8::from(refused)),
    }
}

// A unit that is handed up, as one number.
fn pack(j: Judgement) -> usize
    requires { (j.changed < 256) × (j.length < 256) }
    ensures number { result ≡ packed j }
    ensures fits { result < 2 ^ 31 }
{
    usize::from(u8::from(j.badge)) + 256 * j.changed + 65536 * j.length
}

// What a packet says, as one number.
fn pack_packet(p: Packet) -> usize
    requires { (p.code.0 ≤ 15) × (p.length ≤ 254) }
    ensures number { result ≡ packet_number p.code.0 p.mark p.length }
    ensures fits { result < 2 ^ 31 }
{
    p.code.0 as usize + 16 * usize::from(p.mark) + 256 * p.length
}

// How many octets a unit is sent in, or minus the refusal's number.
pub fn kyte_length(unit: usize, width: u32, e: u32) -> i32
    ensures { result ≡ answer (sent_length unit width e) }
{
    answer(al1m::sent_length(unit, width, e))
}

// Encodes a unit: how many octets of `sent` were written, or minus the refusal's number.
pub fn kyte_encode(unit: &[u8], width: u32, e: u32, sent: &mut [u8]) -> i32
    ensures { EncodeIs width e unit.now sent.old result sent.new }
{
    answer(al1m::encode(unit, width, e, sent))
}

// Receives a word: badge + 256 changed + 65,536 unit length, or minus the refusal's number. The changed places are at the front of `places`.
pub fn kyte_receive(
    received: &[u8],
    width: u32,
    e: u32,
    repair: &mut [u8],
    places: &mut [u8],
) -> i32
    ensures { ReceiveIs width e received.now (record { repair = repair.old; places = places.old }) result
        (record { repair = repair.new; places = places.new }) }
{
    answer(al1m::receive(received, width, e, repair, places).map(pack))
}

// Writes the record of a list of units: how many octets of `output` were written, or minus the refusal's number.
pub fn kyte_record_write(units: &[u16], content: &[u8], output: &mut [u8]) -> i32
    ensures { RecordWriteIs units.now content.now output.old result output.new }
{
    answer(record::write(units, content, output))
}

// Reads a record: how many units there are, or minus the refusal's number.
pub fn kyte_record_read(input: &[u8], units: &mut [u16], content: &mut [u8]) -> i32
    ensures { RecordReadIs input.now units.old content.old result units.new content.new }
{
    answer(record::read(input, units, content))
}

// Writes a packet: how many octets of `packet` were written, or minus the refusal's number. A flag is plain for 0, and else complemented.
pub fn kyte_packet_write(opens: u32, code: u32, mark: u32, payload: &[u8], packet: &mut [u8]) -> i32
    ensures { PacketWriteIs opens code mark payload.now packet.old result packet.new }
{
    let written = packets::write(opens != 0, Code(code), mark != 0, payload, packet);
    answer(written)
}

// Reads the packet at the front of the octets: code + 16 mark + 256 payload length, or minus the refusal's number.
pub fn kyte_packet_read(octets: &[u8]) -> i32
    ensures { result ≡ answer (packet_says (read octets.now)) }
{
    answer(packets::read(octets).map(pack_packet))
}
