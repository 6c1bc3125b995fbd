// A keeper's state: read before a call, written after it.
ghost use Rattle.std.specs.Prelude.{◌≡◌, ◌≤◌, length, Option};
ghost use Rattle.exports.specs.State.{states_in, records_of, numbers_over, table_in, state_told};

use crate::told::KeeperState;
use arrayvec::ArrayVec;
use keeper::Keeper;
use theory::RoundState;

// The records of these numbers; none if a number is no record's.
fn read_records(numbers: &[u8]) -> Option<ArrayVec<RoundState, 64>>
    requires { length numbers.now ≤ 64 }
    ensures { records_of result ≡ states_in numbers.now }
{
    let mut records = ArrayVec::new();
    for number in numbers {
        records.push(RoundState::try_from(*number).ok()?);
    }
    Some(records)
}

// Writes the numbers of these records over the first ones.
fn write_records(records: &[RoundState], numbers: &mut [u8])
    requires { length records.now ≤ length numbers.old }
    ensures { numbers.new ≡ numbers_over records.now numbers.old }
{
    for (i, record) in records.iter().enumerate() {
        numbers[i] = record.number();
    }
}

impl KeeperState {
    // The records, if this is the state of a keeper over a store of so many bytes.
    pub(crate) fn table(&self, bytes: usize) -> Option<ArrayVec<RoundState, 64>>
        ensures { records_of result ≡ table_in self.now bytes }
    {
        let promised = self.promised as usize;
        if promised > Keeper::rounds_in(self.view_length as usize, bytes) {
            return None;
        }
        read_records(&self.records[..promised])
    }

    // As it stands after a call that left the keeper with these records.
    pub(crate) fn save(&mut self, records: &[RoundState])
        requires { length records.now ≤ 64 }
        ensures { self.new ≡ state_told records.now self.old }
    {
        self.promised = records.len() as u64;
        write_records(records, &mut self.records);
    }
}
