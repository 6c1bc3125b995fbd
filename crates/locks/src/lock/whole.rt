// Reading a whole lock.
ghost use Rattle.std.specs.Prelude.{◌≡◌, ◌≤◌, IfOk};
ghost use Rattle.faults.specs.Outcomes.{map_ok};
ghost use Rattle.locks.specs.Circuit.{mus};
ghost use Rattle.locks.specs.Reading.{records_of, lock_of};
ghost use Rattle.locks.specs.Encoding.{Reads};
ghost use Rattle.locks.specs.Model.{standing, behind_header};
ghost use Rattle.locks.specs.Locks.{summary, summary_of, record_bytes, Walkable};

use super::Lock;
use crate::header::{HEADER_LENGTH, header};
use crate::reader::Reader;
use crate::records::Counts;
use faults::Fault;
use kinds::kind::ElementKind;

// The records behind the header, all tested, and nothing behind them; gives the number of products.
fn products<K: ElementKind>(counts: Counts, records: &[u8]) -> Result<usize, Fault>
    requires few { (counts.inputs ≤ 1024) × (counts.gates ≤ 200000) }
    ensures told { result ≡ map_ok (λ l. mus l.gates) (records_of K.kind counts 15 records.now) }
    ensures few { IfOk result (λ products. products ≤ counts.gates) }
{
    let mut reader = Reader::behind_header(records);
    let products = reader.gates::<K>(counts.inputs, counts.gates)?;
    reader.outputs::<K>(counts.inputs + counts.gates, counts.outputs)?;
    reader.end()?;
    Ok(products)
}

// The lock of this kind that the bytes hold, or the fault of the first rule that they break.
pub fn read_lock<'a, K: ElementKind>(bytes: &'a [u8]) -> Result<Lock<'a>, Fault>
    ensures outcome { map_ok summary_of result ≡ map_ok summary (lock_of K.kind bytes.now) }
    ensures exact { Reads K.kind bytes.now }
    ensures walk { Walkable K.kind bytes.now (map_ok record_bytes result) (lock_of K.kind bytes.now) }
{
    let counts = header::<K>(bytes)?;
    let records = &bytes[HEADER_LENGTH..];
    let products = products::<K>(counts, records)?;
    Ok(Lock {
        inputs: counts.inputs as u32,
        gates: counts.gates as u32,
        outputs: counts.outputs as u32,
        products: products as u32,
        records,
    })
}

impl<'a> Lock<'a> {
    // Walks the lock's records again: its gates, then its outputs.
    pub fn reader(&self) -> Reader<'a>
        ensures { standing result ≡ behind_header self.now.records.now }
    {
        Reader::behind_header(self.records)
    }
}
