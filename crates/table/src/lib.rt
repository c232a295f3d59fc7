// The multiplex table of H.223 (000, 6.4.1.1): its entries, and the slots of a payload under one of them.
#![tactic(auto)]

pub mod form; // form.rt: whether numbers are an entry
pub mod walk; // walk.rt: the slots of an entry

ghost use Rattle.std.specs.Prelude.{◌≡◌, ◌+◌, ◌*◌, ◌≤◌, length, take, drop};
ghost use Rattle.calls.specs.Refusal.{ended, says};
ghost use Rattle.table.specs.Table.{highest_code, longest_entry, longest_payload, entry_of, is_defined, replaced};
ghost use Rattle.table.specs.Slots as slotted;
ghost use Rattle.table.specs.Lays.{LaysInto};

use crate::walk::Laid;
use calls::Refusal;

// A multiplex code: which entry of the table a payload is laid out by. It is no channel number.
#[derive(Clone, Copy, Debug, PartialEq, Eq)]
pub struct Code(pub u32);

pub const HIGHEST_CODE: u32 = 15;

// How many numbers a table has: entry 0 is fixed, and each of the others has room for the longest.
pub const TABLE_NUMBERS: usize = HIGHEST_CODE as usize * form::LONGEST_ENTRY;

// The octets of the longest payload.
pub const LONGEST_PAYLOAD: usize = 255;

// Whether the table has an entry for the code.
#[tactic(auto, using(crate::proofs::Entries::defined))]
pub fn is_defined(table: &[u16; TABLE_NUMBERS], code: Code) -> bool
    ensures { result ≡ is_defined table.now code.0 }
{
    let c = code.0;
    if HIGHEST_CODE < c {
        return false;
    }
    if c == 0 {
        return true;
    }
    let at = form::LONGEST_ENTRY * (c as usize - 1);
    table[at] != 0
}

// The numbers of entry k + 1, with what stands behind them where it is shorter.
fn entry_at(table: &[u16], k: usize) -> &[u16]
    requires { longest_entry * k + longest_entry ≤ length table.now }
    ensures { result.now ≡ take longest_entry (drop (longest_entry * k) table.now) }
{
    let at = form::LONGEST_ENTRY * k;
    let end = at + form::LONGEST_ENTRY;
    &table[at..end]
}

// The slots of a payload of n octets under the code's entry: their channels to the front of `channels`, how many octets each has to
// the front of `lengths`. The multiplexer alone calls it, and has tested the code and the length.
#[tactic(auto, unfolding(crate::specs::Table::entry_of))]
pub fn payload_slots(
    table: &[u16; TABLE_NUMBERS],
    code: Code,
    n: usize,
    channels: &mut [u16; LONGEST_PAYLOAD],
    lengths: &mut [u16; LONGEST_PAYLOAD],
) -> Laid
    requires { (n ≤ longest_payload) × (code.0 ≤ highest_code) }
    ensures { LaysInto (record { count = 0; left = n }) (slotted.payload_slots (entry_of table.now code.0) n) result channels lengths }
{
    let c = code.0;
    if c == 0 {
        let fixed = [1u16, 0, 0, 0];
        return walk::lay(&fixed, n, channels, lengths);
    }
    walk::lay(entry_at(table, c as usize - 1), n, channels, lengths)
}

// Replaces the code's entry: refusals 4 (there is no such code), 14, 10.
#[tactic(auto, using(crate::proofs::Entries::entry_short), unfolding(crate::specs::Table::replaced))]
pub fn replace(table: &mut [u16; TABLE_NUMBERS], code: Code, entry: &[u16]) -> Result<(), Refusal>
    ensures { ended (says result) table.new ≡ replaced table.old code.0 entry.now }
{
    let c = code.0;
    if HIGHEST_CODE < c {
        return Err(Refusal::NoEntry);
    }
    if c == 0 {
        return Err(Refusal::Fixed);
    }
    if !form::is_entry(entry) {
        return Err(Refusal::BadEntry);
    }
    octets::write(table, form::LONGEST_ENTRY * (c as usize - 1), entry);
    Ok(())
}
