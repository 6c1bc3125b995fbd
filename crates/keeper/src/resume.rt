// A keeper that goes on where another stopped, for a host that keeps the records itself.
ghost use Rattle.std.specs.Prelude.{◌≡◌, ◌≤◌, length};
ghost use Rattle.theory.specs.Store.{rounds_in};
ghost use Rattle.keeper.specs.Model.{values_of, resumed_from};

use super::Keeper;
use super::parts::rounds_in;
use arrayvec::ArrayVec;
use theory::RoundState;

impl<'a> Keeper<'a> {
    // How many rounds of views of that length a store of so many bytes holds.
    pub fn rounds_in(view_length: usize, bytes: usize) -> usize
        ensures value { result ≡ rounds_in view_length bytes }
        ensures few { result ≤ 64 }
    {
        rounds_in(view_length, bytes)
    }

    // Over a store whose rounds have these records; of more records than it holds rounds, the first count.
    pub fn resumed(view_length: usize, table: &[RoundState], store: &'a mut [u8]) -> Keeper<'a>
        ensures value { values_of result ≡ resumed_from view_length table.now store.old }
        ensures named { result.store.ghost_name ≡ store.entry.ghost_name }
    {
        let capacity = rounds_in(view_length, store.len());
        let promised = capacity.min(table.len());
        let mut records = ArrayVec::new();
        records.try_extend_from_slice(&table[..promised]).unwrap();
        Keeper {
            store,
            view_length,
            capacity,
            records,
        }
    }

    // The records of the rounds promised so far.
    pub fn records(&self) -> &[RoundState]
        ensures { result.now ≡ (values_of self.now).table }
    {
        self.records.as_slice()
    }
}
