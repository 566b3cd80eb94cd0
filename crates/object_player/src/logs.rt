//! The machine of lawful logs: by calls, and by a replay of the events.

use crate::values::Value;
use crate::world::{
    TRIES, World, fault, memory, named, nothing, number, optional, run, shown, small, text,
    unknown, word,
};
use anyhow::{Result, bail};
use case_files::{Line, Playing};
use far_object::Text;
use std::alloc::Global;
use table_core::{CoreFault, Event, MOST_BUCKETS, Machine, Operation, Pairs};

/// A machine, and the events that its calls were or that were written down.
#[derive(Drop)]
struct Log<K: Value, V: Value> {
    alloc: Global,
    buckets: u32,
    machine: Machine<K, V>,
    events: Vec<Event<K, V>>,
}

pub(crate) fn play(alloc: Global, first: &Line, playing: &mut Playing<'_>) -> Result<()> {
    match first.named("keys") {
        Some(b"numbers") => play_of::<u64, u64>(alloc, first, playing),
        _ => play_of::<Text, Text>(alloc, first, playing),
    }
}

fn play_of<K: Value, V: Value>(
    alloc: Global,
    first: &Line,
    playing: &mut Playing<'_>,
) -> Result<()> {
    let buckets = named(first, "buckets", 4)?;
    if buckets == 0 || buckets > MOST_BUCKETS {
        bail!("there are 1 to {MOST_BUCKETS} buckets");
    }
    let machine = Machine::<K, V>::new(alloc, buckets)?;
    let mut log = Log {
        alloc,
        buckets,
        machine,
        events: Vec::new(alloc),
    };
    run(alloc, first, playing, &mut log);
    Ok(())
}

/// The pairs that the words from this place on spell.
fn pairs<K: Value, V: Value>(alloc: Global, line: &Line, at: usize) -> Result<Vec<(K, V)>> {
    let mut items = Vec::new(alloc);
    for pair in line.rest(at).chunks(2) {
        let [key, value] = pair else {
            bail!("a value is missing");
        };
        let key = K::of(alloc, key.as_slice())?;
        items.push((key, V::of(alloc, value.as_slice())?))?;
    }
    Ok(items)
}

/// The word that a call installs, if there is one.
fn installed(line: &Line, at: usize) -> Result<Option<u64>> {
    match optional(line, at) {
        None => Ok(None),
        Some(_) => Ok(Some(number(line, at)?)),
    }
}

/// The number that the call answered, or why it was refused.
fn told_number(alloc: Global, answer: std::result::Result<u64, CoreFault>) -> Result<String> {
    match answer {
        Ok(number) => shown(alloc, &number),
        Err(why) => fault(alloc, &why.rule),
    }
}

fn told_value<V: Value>(
    alloc: Global,
    answer: std::result::Result<Option<V>, CoreFault>,
) -> Result<String> {
    match answer {
        Ok(None) => text(alloc, "none"),
        Ok(Some(value)) => {
            for _ in 0..TRIES {
                let mut out = String::new(alloc);
                if value.tell(&mut out).is_ok() {
                    return Ok(out);
                }
            }
            memory(alloc)
        }
        Err(why) => fault(alloc, &why.rule),
    }
}

impl<K: Value, V: Value> Log<K, V> {
    fn key(&self, line: &Line, at: usize) -> Result<K> {
        K::of(self.alloc, word(line, at)?)
    }

    fn value(&self, line: &Line, at: usize) -> Result<V> {
        V::of(self.alloc, word(line, at)?)
    }

    fn expected(&self, line: &Line, at: usize) -> Result<Option<V>> {
        match optional(line, at) {
            None => Ok(None),
            Some(word) => Ok(Some(V::of(self.alloc, word)?)),
        }
    }

    /// The call of the map that the line is, from this word on, with the word that it installs.
    fn operation(&self, line: &Line, at: usize) -> Result<(Operation<K, V>, Option<u64>)> {
        let (one, two, three) = (
            at.saturating_add(1),
            at.saturating_add(2),
            at.saturating_add(3),
        );
        match word(line, at)? {
            b"put" => {
                let asked = Operation::Put(self.key(line, one)?, self.value(line, two)?);
                Ok((asked, installed(line, three)?))
            }
            b"get" => Ok((Operation::Get(self.key(line, one)?), installed(line, two)?)),
            b"remove" => Ok((
                Operation::Remove(self.key(line, one)?),
                installed(line, two)?,
            )),
            b"put_if" => {
                let (key, expected) = (self.key(line, one)?, self.expected(line, two)?);
                let asked = Operation::PutIf(key, expected, self.value(line, three)?);
                Ok((asked, installed(line, at.saturating_add(4))?))
            }
            _ => bail!("a call is put, get, remove or put_if"),
        }
    }

    /// Writes down an event that no call made.
    fn event(&mut self, line: &Line) -> Result<String> {
        let event = match word(line, 1)? {
            b"enter" => Event::Enter(small(line, 2)?),
            b"named" => {
                let items = pairs(self.alloc, line, 4)?;
                Event::Named(number(line, 2)?, small(line, 3)?, Pairs::new(items))
            }
            b"moved" => Event::Moved(small(line, 2)?, number(line, 3)?),
            _ => {
                let (asked, word) = self.operation(line, 1)?;
                Event::Done(named(line, "pass", 1)?, asked, word)
            }
        };
        self.events.push(event)?;
        nothing(self.alloc)
    }

    /// Makes a call of the map, and writes it down where it was not refused.
    fn done(&mut self, line: &Line) -> Result<String> {
        let pass = named(line, "pass", 1)?;
        let (asked, word) = self.operation(line, 0)?;
        // No growth is refused behind the call.
        self.events.reserve(1)?;
        let alloc = self.alloc;
        let answer = match (&asked, word) {
            (Operation::Put(key, value), Some(word)) => {
                self.machine.put(alloc, pass, key, value, word)
            }
            (Operation::Put(_, _), None) => bail!("a put installs a word"),
            (Operation::Get(key), _) => self.machine.get(alloc, pass, key),
            (Operation::Remove(key), word) => self.machine.remove(alloc, pass, key, word),
            (Operation::PutIf(key, expected, value), word) => {
                let expected = expected.as_ref();
                self.machine.put_if(alloc, pass, key, expected, value, word)
            }
        };
        if answer.is_ok() {
            self.events.push(Event::Done(pass, asked, word))?;
        }
        told_value(alloc, answer)
    }

    fn enter(&mut self) -> Result<String> {
        self.events.reserve(1)?;
        let answer = self.machine.enter();
        if let Ok(pass) = &answer {
            self.events.push(Event::Enter(*pass))?;
        }
        told_number(self.alloc, answer.map(u64::from))
    }

    fn name(&mut self, line: &Line) -> Result<String> {
        let bucket = small(line, 1)?;
        let items = pairs(self.alloc, line, 2)?;
        let again = pairs(self.alloc, line, 2)?;
        self.events.reserve(1)?;
        let answer = self.machine.name(bucket, Pairs::new(items));
        if let Ok(name) = &answer {
            let event = Event::Named(*name, bucket, Pairs::new(again));
            self.events.push(event)?;
        }
        told_number(self.alloc, answer)
    }

    fn move_to(&mut self, line: &Line) -> Result<String> {
        let (bucket, word) = (small(line, 1)?, number(line, 2)?);
        self.events.reserve(1)?;
        match self.machine.move_to(bucket, word) {
            Ok(()) => {
                self.events.push(Event::Moved(bucket, word))?;
                nothing(self.alloc)
            }
            Err(why) => fault(self.alloc, &why.rule),
        }
    }

    /// Makes the machine anew from the events. The fault names the first that may not follow.
    fn replay(&mut self) -> Result<String> {
        if self.buckets == 0 || self.buckets > MOST_BUCKETS {
            bail!("there are 1 to {MOST_BUCKETS} buckets");
        }
        match Machine::replay(self.alloc, self.buckets, self.events.as_slice()) {
            Ok(machine) => {
                self.machine = machine;
                nothing(self.alloc)
            }
            Err(why) if why.place == 0 => memory(self.alloc),
            Err(why) => shown(self.alloc, &why),
        }
    }

    /// What stands in the machine.
    fn look(&self, line: &Line) -> Result<String> {
        match line.call() {
            "buckets" => shown(self.alloc, &self.machine.buckets()),
            "names" => shown(self.alloc, &self.machine.names()),
            "passes" => shown(self.alloc, &self.machine.passes()),
            "current" => {
                let bucket = small(line, 1)?;
                if bucket >= self.machine.buckets() {
                    bail!("there is no such bucket");
                }
                shown(self.alloc, &self.machine.current(bucket))
            }
            "contents" => match self.machine.contents(number(line, 1)?) {
                None => text(self.alloc, "none"),
                Some(pairs) => {
                    let mut out = String::new(self.alloc);
                    for pair in pairs {
                        push_pair(&mut out, pair)?;
                    }
                    Ok(out)
                }
            },
            "pairs" => match self.machine.pairs(self.alloc) {
                Err(_) => memory(self.alloc),
                Ok(pairs) => {
                    let mut out = String::new(self.alloc);
                    for pair in &pairs {
                        push_pair(&mut out, *pair)?;
                    }
                    Ok(out)
                }
            },
            _ => unknown(line),
        }
    }
}

/// Puts the pair behind the others.
fn push_pair<K: Value, V: Value>(out: &mut String, pair: &(K, V)) -> Result<()> {
    if !out.is_empty() {
        out.push(' ')?;
    }
    pair.0.tell(out)?;
    out.push(' ')?;
    pair.1.tell(out)
}

impl<K: Value, V: Value> World for Log<K, V> {
    fn call(&mut self, line: &Line) -> Result<String> {
        match line.call() {
            "event" => self.event(line),
            "replay" => self.replay(),
            "enter" => self.enter(),
            "name" => self.name(line),
            "put" | "get" | "remove" | "put_if" => self.done(line),
            "move_to" => self.move_to(line),
            _ => self.look(line),
        }
    }
}
