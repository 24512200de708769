ghost use Rattle.std.specs.Prelude.{◌≡◌, ◌+◌, ◌*◌, ◌≤◌, ◌⊎◌, List, [], ◌++◌, length, Some, Ok, Err, IfOk, OnOk};
ghost use Rattle.node_tree.specs.declared.readings.Reading.{Reading};
ghost use Rattle.mspec_meaning.specs.Plain.{CanRead};
ghost use Rattle.mspec_meaning.specs.Stream.{Stream, Ending};
ghost use Rattle.link_io.specs.Counts.{Rose};
ghost use Rattle.host_engine.specs.Listing.{listing, fields_at};
ghost use Rattle.host_engine.specs.Tool.{listings};
ghost use Rattle.host_engine.specs.Runs.{Adds, PutsFront};
ghost use Rattle.host_engine.specs.Endings.{ending_of, fault_rest};

use crate::faults::Cut;
use crate::inputs::INPUT_LIMIT;
use crate::listings::add_listing;
use crate::printing::put_large;
use link_io::Sink;
use mspec_meaning::read_plain;
use mspec_tree::{DefBody, Description, Field};
use node_tree::{Node, ReadFault, ReadWhy};
use std::alloc::Global;

/// Why a value is refused: by its reading, or because it ends inside a byte.
#[derive(Clone, Copy, Debug, PartialEq, Eq)]
pub enum ValueWhy {
    Reading(ReadWhy),
    PartOfByte,
}

/// How the values end: no bit is left, some bits are too few, or the bits from one on are no value.
#[derive(Clone, Copy, Debug, PartialEq, Eq)]
pub enum Rest {
    Whole,
    Short { left: u64 },
    Bad { bit: u64, why: ValueWhy },
}

/// The fields of a definition, none where it isn't a type or isn't there.
fn fields_of(d: &Description, def: u16) -> &[Field]
    ensures { result.now ≡ fields_at d.now def }
{
    match d.defs.get(usize::from(def)) {
        Some(found) => match &found.body {
            DefBody::Plain(fields) => fields.as_slice(),
            _ => &[],
        },
        None => &[],
    }
}

/// Adds a value's listing to what is gathered, and puts that out once it is large.
fn put_value<K: Sink>(
    out: &mut K,
    gathered: &mut Vec<u8>,
    fields: &[Field],
    node: &Node,
) -> Result<(), Cut>
    ensures added { OnOk result
        (Adds (K.seen out.old).held (K.seen out.new).held gathered.old.items gathered.new.items
        (listing fields.now node.now)) }
    ensures no_fault { result ≡ Err Cut.WriteFault ⊎ ((K.seen out.new).faults ≡ (K.seen out.old).faults) }
    ensures no_memory { result ≡ Err Cut.NoMemory →
        ((K.seen out.new).held ≡ (K.seen out.old).held) × (gathered.new.items ≡ gathered.old.items) }
    ensures cut { result ≡ Err Cut.WriteFault →
        PutsFront (K.seen out.old).held (K.seen out.new).held (gathered.old.items ++ listing fields.now node.now) }
    ensures fault { result ≡ Err Cut.WriteFault → Rose (K.seen out.old).faults (K.seen out.new).faults }
{
    let before = gathered.len();
    if add_listing(gathered, fields, node).is_err() {
        gathered.truncate(before);
        return Err(Cut::NoMemory);
    }
    put_large(out, gathered)?;
    Ok(())
}

/// How the values end at a fault in the value that begins at this bit, with so many bits left.
fn fault_rest(fault: ReadFault, bit: u64, left: u64) -> Result<Rest, Cut>
    requires { bit ≤ 8 * INPUT_LIMIT }
    ensures { result ≡ fault_rest fault bit left }
{
    match fault {
        ReadFault::Short => Ok(Rest::Short { left }),
        ReadFault::Bad { bit: within, why } => Ok(Rest::Bad {
            bit: bit + u64::from(within),
            why: ValueWhy::Reading(why),
        }),
        ReadFault::NoMemory => Err(Cut::NoMemory),
    }
}

/// Puts out the listings of the values of a type, one after another from the first byte on, and tells how they
/// end. What isn't put out stays gathered.
pub fn put_values<K: Sink>(
    alloc: Global,
    out: &mut K,
    gathered: &mut Vec<u8>,
    d: &Description,
    def: u16,
    bytes: &[u8],
) -> Result<Rest, Cut>
    requires can { CanRead d.now def [] }
    requires within { length bytes.now ≤ INPUT_LIMIT }
    ensures values { IfOk result (λ rest. (readings : List Reading)
        × Stream d.now def [] bytes.now readings (ending_of rest)
        × Adds (K.seen out.old).held (K.seen out.new).held gathered.old.items gathered.new.items (listings d.now def readings)) }
    ensures no_fault { result ≡ Err Cut.WriteFault ⊎ ((K.seen out.new).faults ≡ (K.seen out.old).faults) }
    ensures no_memory { result ≡ Err Cut.NoMemory → (front back : List Reading) × (ending : Ending)
        × Stream d.now def [] bytes.now (front ++ back) ending
        × Adds (K.seen out.old).held (K.seen out.new).held gathered.old.items gathered.new.items (listings d.now def front) }
    ensures cut { result ≡ Err Cut.WriteFault → (front back : List Reading) × (ending : Ending)
        × Stream d.now def [] bytes.now (front ++ back) ending
        × PutsFront (K.seen out.old).held (K.seen out.new).held (gathered.old.items ++ listings d.now def front) }
    ensures fault { result ≡ Err Cut.WriteFault → Rose (K.seen out.old).faults (K.seen out.new).faults }
{
    let fields = fields_of(d, def);
    let mut at = 0;
    while at < bytes.len() {
        let bit = 8 * at as u64;
        let reading = match read_plain(alloc, d, def, &[], &bytes[at..]) {
            Ok(reading) => reading,
            Err(fault) => return fault_rest(fault, bit, 8 * (bytes.len() - at) as u64),
        };
        if reading.bits == 0 {
            let why = ValueWhy::Reading(ReadWhy::ZeroItem);
            return Ok(Rest::Bad { bit, why });
        }
        if reading.bits % 8 != 0 {
            let bit = bit + u64::from(reading.bits);
            let why = ValueWhy::PartOfByte;
            return Ok(Rest::Bad { bit, why });
        }
        put_value(out, gathered, fields, &reading.node)?;
        at += (reading.bits / 8) as usize;
    }
    Ok(Rest::Whole)
}
