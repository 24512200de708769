ghost use Rattle.std.specs.Prelude.{◌≡◌, ◌≤◌, ℕ, List, [], ◌++◌, OnOk, OnErr};
ghost use Rattle.link_io.specs.Counts.{Rose};
ghost use Rattle.link_io.specs.Streams.{after_taking};
ghost use Rattle.host_engine.specs.Runs.{Adds, PutsFront};

use link_io::{Failed, Sink};

/// How many bytes are gathered before they are put out.
const ENOUGH: usize = 65_536;

/// Puts all bytes out. A write that takes no byte is a fault. What went out before a fault is a front of the bytes.
pub fn put_all<K: Sink>(out: &mut K, bytes: &[u8]) -> Result<(), Failed>
    ensures put { OnOk result ((K.seen out.new).held ≡ after_taking bytes.now (K.seen out.old).held) }
    ensures no_fault { OnOk result ((K.seen out.new).faults ≡ (K.seen out.old).faults) }
    ensures front { OnErr result ((front rest : List ℕ) × (front ++ rest ≡ bytes.now)
        × ((K.seen out.new).held ≡ after_taking front (K.seen out.old).held)) }
    ensures fault { OnErr result (Rose (K.seen out.old).faults (K.seen out.new).faults) }
    ensures faults_grow { (K.seen out.old).faults ≤ (K.seen out.new).faults }
{
    let mut rest = bytes;
    while !rest.is_empty() {
        let count = out.write(rest)?;
        if count == 0 {
            return Err(Failed);
        }
        rest = &rest[count..];
    }
    Ok(())
}

/// Puts what is gathered out once it is large.
pub fn put_large<K: Sink>(out: &mut K, gathered: &mut Vec<u8>) -> Result<(), Failed>
    ensures added { OnOk result
        (Adds (K.seen out.old).held (K.seen out.new).held gathered.old.items gathered.new.items []) }
    ensures no_fault { OnOk result ((K.seen out.new).faults ≡ (K.seen out.old).faults) }
    ensures front { OnErr result (PutsFront (K.seen out.old).held (K.seen out.new).held gathered.old.items) }
    ensures fault { OnErr result (Rose (K.seen out.old).faults (K.seen out.new).faults) }
{
    if gathered.len() >= ENOUGH {
        put_all(out, gathered)?;
        gathered.clear();
    }
    Ok(())
}
