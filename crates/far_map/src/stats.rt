//! What a session counts.
ghost use Rattle.std.specs.Prelude.{◌≡◌, ℕ, List};
ghost use Rattle.far_map.specs.Asks.{asked};
ghost use Rattle.far_map.specs.Counts.{no_calls, refused_more, counted, counted_get};
ghost use Rattle.far_map.specs.Removals.{call_of};

use crate::change_request::ChangeRequest;
use crate::refusal::MapRefusal;
use crate::values::Value;
use hash_table::Removal;

/// What a session has counted of its own calls: those that were finished by kind, and those that were refused
/// by reason. Each call of the history is counted once. A count of 2^64 - 1 stays.
#[derive(Clone, Copy, Debug, PartialEq, Eq)]
pub struct Stats {
    /// Gets that were finished: `get`, `with`, `hold` and `contains`, each get of a `get_many` or an
    /// `update`, and a `remove_if` that removed nothing.
    pub gets: u64,
    /// Puts that were finished.
    pub puts: u64,
    /// Removals that were finished: `remove`, and a `remove_if` that removed its key.
    pub removes: u64,
    /// `put_if` calls that were finished, also if they found another value, and those of an `update`.
    pub put_ifs: u64,
    /// Calls that were refused with `MapRefusal::TooLong`.
    pub too_long: u64,
    /// Calls that were refused with `MapRefusal::Full`.
    pub full: u64,
    /// Calls that were refused with `MapRefusal::NamesSpent`.
    pub names_spent: u64,
    /// Calls that were refused with `MapRefusal::Device`.
    pub device: u64,
    /// Calls that were refused with `MapRefusal::Damaged`.
    pub damaged: u64,
    /// Calls that were refused with `MapRefusal::Memory`.
    pub memory: u64,
}

fn more(count: u64) -> u64
    ensures { result ≡ Rattle.far_map.specs.Counts.more count }
{
    count.saturating_add(1)
}

impl Stats {
    pub(crate) fn new() -> Stats
        ensures { result ≡ no_calls }
    {
        Stats {
            gets: 0,
            puts: 0,
            removes: 0,
            put_ifs: 0,
            too_long: 0,
            full: 0,
            names_spent: 0,
            device: 0,
            damaged: 0,
            memory: 0,
        }
    }

    fn refuse(&mut self, refusal: MapRefusal)
        ensures { self.new ≡ refused_more refusal self.old }
    {
        match refusal {
            MapRefusal::TooLong => self.too_long = more(self.too_long),
            MapRefusal::Full(_) => self.full = more(self.full),
            MapRefusal::NamesSpent => self.names_spent = more(self.names_spent),
            MapRefusal::Device => self.device = more(self.device),
            MapRefusal::Damaged => self.damaged = more(self.damaged),
            MapRefusal::Memory => self.memory = more(self.memory),
        }
    }

    /// Counts a get with this result.
    pub(crate) fn count_get<V: Value, T>(&mut self, answered: &Result<T, MapRefusal>)
        ensures { (k : List ℕ) → self.new ≡ counted_get V k answered.now self.old }
    {
        match answered {
            Ok(_) => self.gets = more(self.gets),
            Err(refusal) => self.refuse(*refusal),
        }
    }

    /// Counts a change with this result.
    pub(crate) fn count_change<V: Value>(
        &mut self,
        ask: &ChangeRequest<'_, V>,
        answered: &Result<Option<V>, MapRefusal>,
    )
        ensures { self.new ≡ counted (asked ask.now) answered.now self.old }
    {
        if let Err(refusal) = answered {
            self.refuse(*refusal);
            return;
        }
        match ask {
            ChangeRequest::Put(_, _) => self.puts = more(self.puts),
            ChangeRequest::Remove(_) => self.removes = more(self.removes),
            ChangeRequest::PutIf(_, _, _) => self.put_ifs = more(self.put_ifs),
        }
    }

    /// Counts a conditional removal with this result. One that removed nothing was a get.
    pub(crate) fn count_removal<V: Value>(&mut self, answered: &Result<Removal<V>, MapRefusal>)
        ensures { (k : List ℕ) → self.new ≡ counted (call_of k answered.now) answered.now self.old }
    {
        match answered {
            Ok(removal) if removal.removed => self.removes = more(self.removes),
            Ok(_) => self.gets = more(self.gets),
            Err(refusal) => self.refuse(*refusal),
        }
    }
}
