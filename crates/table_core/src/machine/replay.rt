//! A machine that follows a log, event by event. No event looks at more than the contents of its bucket and of the word
//! that it installs, so the work is near linear in the size of the events.
ghost use Rattle.std.specs.Prelude.{◌≡◌, ◌≢◌, ◌<◌, ◌≤◌, List, IfOk, IfErr, OnErr};
ghost use Rattle.table_core.specs.declared.event.Event.{Event};
ghost use Rattle.table_core.specs.declared.fault.Rule.{Rule};
ghost use Rattle.table_core.specs.Machines.{buckets_of, StandsAt, GoesOn, Breaks, Stops};
ghost use Rattle.table_core.specs.Lawful.{widest};
ghost use Rattle.table_core.specs.Limits.{most_buckets};

use crate::contents::copied;
use crate::event::Event;
use crate::fault::{CoreFault, Rule};
use crate::limits::LAST_PASS;
use crate::machine::Machine;
use crate::operation::Operation;
use crate::pairs::Pairs;
use far_object::FarObject;
use std::alloc::Global;

impl<K: FarObject, V: FarObject> Machine<K, V> {
    /// The machine of a log that is lawful, or the first event that is not: its place, counted from 1, and the rule that it
    /// breaks. Want of memory has the place 0.
    pub fn replay(
        alloc: Global,
        buckets: u32,
        events: &[Event<K, V>],
    ) -> Result<Machine<K, V>, CoreFault>
        requires some { 0 < buckets }
        requires few { buckets ≤ most_buckets }
        ensures stands { IfOk result (λ m. StandsAt K.enc V.enc m events.now) }
        ensures buckets { IfOk result (λ m. buckets_of m ≡ buckets) }
        ensures refused { IfErr result (λ fault. Stops K.enc V.enc (widest buckets) events.now fault) }
    {
        let mut machine = Machine::new(alloc, buckets)?;
        for (at, event) in events.iter().enumerate() {
            if let Err(rule) = machine.follow(alloc, event) {
                return Err(fault_at(at as u64 + 1, rule));
            }
        }
        Ok(machine)
    }

    /// Goes on by this event.
    fn follow(&mut self, alloc: Global, event: &Event<K, V>) -> Result<(), Rule>
        ensures ok { IfOk result (λ _. (log : List (Event K V)) → StandsAt K.enc V.enc self.old log → GoesOn K.enc V.enc self.old self.new log event.now) }
        ensures refused { IfErr result (λ rule. (log : List (Event K V)) → StandsAt K.enc V.enc self.old log → Breaks K.enc V.enc (widest (buckets_of self.old)) log event.now rule) }
        ensures err { OnErr result (self.new ≡ self.old) }
    {
        match event {
            Event::Enter(pass) => self.follow_entry(*pass),
            Event::Named(name, bucket, pairs) => self.follow_naming(alloc, *name, *bucket, pairs),
            Event::Done(pass, operation, word) => {
                let bucket = self.judge_done(*pass, &Operation::of(operation), *word)?;
                self.install(bucket, *word);
                Ok(())
            }
            Event::Moved(bucket, word) => {
                self.judge_move(*bucket, *word)?;
                self.install(*bucket, Some(*word));
                Ok(())
            }
        }
    }

    /// Goes on by the drawing of this pass.
    fn follow_entry(&mut self, pass: u32) -> Result<(), Rule>
        ensures ok { IfOk result (λ _. (log : List (Event K V)) → StandsAt K.enc V.enc self.old log → GoesOn K.enc V.enc self.old self.new log (Event.Enter pass)) }
        ensures refused { IfErr result (λ rule. (log : List (Event K V)) → StandsAt K.enc V.enc self.old log → Breaks K.enc V.enc (widest (buckets_of self.old)) log (Event.Enter pass) rule) }
        ensures err { OnErr result (self.new ≡ self.old) }
    {
        if self.passes >= LAST_PASS || pass != self.passes + 1 {
            return Err(Rule::WrongPass);
        }
        self.passes = pass;
        Ok(())
    }

    /// Goes on by the drawing of this name. The pairs are copied, once the naming is judged.
    fn follow_naming(
        &mut self,
        alloc: Global,
        name: u64,
        bucket: u32,
        pairs: &Pairs<K, V>,
    ) -> Result<(), Rule>
        ensures ok { IfOk result (λ _. (log : List (Event K V)) → StandsAt K.enc V.enc self.old log → GoesOn K.enc V.enc self.old self.new log (Event.Named name bucket pairs.now)) }
        ensures refused { IfErr result (λ rule. (log : List (Event K V)) → StandsAt K.enc V.enc self.old log → Breaks K.enc V.enc (widest (buckets_of self.old)) log (Event.Named name bucket pairs.now) rule) }
        ensures err { OnErr result (self.new ≡ self.old) }
    {
        if name == 0 || name - 1 != self.names() {
            return Err(Rule::NameUsed);
        }
        self.judge_naming(bucket, pairs.as_slice())?;
        let copies = copied(alloc, pairs.as_slice())?;
        self.push_name(bucket, Pairs::new(copies))?;
        Ok(())
    }
}

/// The fault of an event at this place. Want of memory has no place.
fn fault_at(place: u64, rule: Rule) -> CoreFault
    ensures memory { rule ≡ Rule.Memory → result ≡ record { place = 0; rule = Rule.Memory } }
    ensures place { rule ≢ Rule.Memory → result ≡ record { place = place; rule = rule } }
{
    match rule {
        Rule::Memory => CoreFault::from(Rule::Memory),
        _ => CoreFault { place, rule },
    }
}
