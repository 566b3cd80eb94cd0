//! What a case has opened: a table with its queue, its evictor and its callers.

use crate::datum::{Datum, number_at};
use crate::seats::Taker;
use crate::site::{Evicting, Queue, Site, Spares, Table};
use crate::stop::{Reply, Stop, told};
use crate::user::{User, entered};
use crate::{block, calls, close, is_opening, replies, scope};
use case_files::{Line, Playing};
use far_device::Device;
use std::alloc::Global;
use std::sync::Wait;
use std::thread::Threads;
use swapper::{QueueNaming, QueueSeat};
use version_words::{Mark, Naming};

/// The callers of a case in the order in which they entered, and the seats that are left for others.
#[derive(Drop)]
pub struct Callers<T: Datum, J: Naming, B: QueueNaming> {
    pub users: Vec<User<T, J, B>>,
    pub seats: Vec<QueueSeat<T, T, J, B>>,
}

impl<T: Datum, J: Naming, B: QueueNaming> Callers<T, J, B> {
    /// The place of the caller of this name.
    pub fn place(&self, name: &[u8]) -> Option<usize> {
        self.users
            .iter()
            .position(|user| user.name.as_slice() == name)
    }

    /// The caller of this name, who enters where there is none. None where no pass is left.
    pub fn user<D: Device>(
        &mut self,
        alloc: Global,
        table: &Table<T, J, D>,
        name: &[u8],
    ) -> Result<Option<&mut User<T, J, B>>, Stop> {
        if let Some(place) = self.place(name) {
            return Ok(self.users.get_mut(place));
        }
        // No pass is drawn, and no seat taken, that could not be kept.
        let name = Vec::from_slice(alloc, name)?;
        self.users.reserve(1)?;
        let seat = self.seats.pop();
        match User::enter(table, name, seat) {
            None => Ok(None),
            Some(user) => {
                self.users.push(user)?;
                Ok(self.users.last_mut())
            }
        }
    }

    /// A call of the caller that the line names.
    pub fn call<D: Device, R: Wait>(
        &mut self,
        rt: &R,
        site: &Site<'_, T, J, B, D>,
        line: &Line,
    ) -> Reply {
        match self.user(site.alloc, site.table, line.thread())? {
            Some(user) => calls::call(rt, site, user, line),
            None => Err(Stop::Mistake("no pass is left for this caller")),
        }
    }
}

/// A mark by its name in the case.
#[derive(Drop)]
pub struct Marked<T: Datum, J: Naming> {
    name: Vec<u8>,
    mark: Mark<T, T, J>,
}

/// What a case has opened.
#[derive(Drop)]
pub struct World<T: Datum, J: Naming, B: QueueNaming, D: Device> {
    pub alloc: Global,
    /// None once it has ended.
    pub table: Option<Table<T, J, D>>,
    pub queue: Queue<T, J, B>,
    pub evictor: Option<Evicting<T, J, B>>,
    pub taker: Option<Taker<T, J, B>>,
    pub spares: Spares,
    pub frames: u32,
    pub buckets: u32,
    pub callers: Callers<T, J, B>,
    pub marks: Vec<Marked<T, J>>,
    /// The pairs that the last `close_through` or `drain` handed over.
    pub handed: Vec<(T, T)>,
    /// The device that a drained table is handed over to, while it was not taken. It lies apart, since nobody knows how large a device is.
    pub spool: Vec<D>,
}

/// Why there is no table.
pub const ENDED: Stop = Stop::Mistake("the table has ended");

/// What threads share of it, where the table is there.
pub fn site_of<'s, T: Datum, J: Naming, B: QueueNaming, D: Device>(
    alloc: Global,
    table: &'s Table<T, J, D>,
    queue: &'s Queue<T, J, B>,
    evictor: &'s Option<Evicting<T, J, B>>,
    spares: &'s Spares,
    sizes: (u32, u32),
) -> Site<'s, T, J, B, D> {
    Site {
        alloc,
        table,
        queue,
        evictor: evictor.as_ref(),
        spares,
        frames: sizes.0,
        buckets: sizes.1,
    }
}

impl<T, J, B, D> World<T, J, B, D>
where
    T: Datum + Send + Sync,
    J: Naming + Send + Sync,
    B: QueueNaming + Send + Sync,
    D: Device + Send,
{
    // Callers enter, or learn what others have seen.
    fn entering(&mut self, line: &Line) -> Reply {
        let alloc = self.alloc;
        let table = self.table.as_ref().ok_or(ENDED)?;
        match line.call() {
            "enter" => match self.callers.user(alloc, table, line.thread())? {
                Some(_) => replies::text(alloc, ""),
                None => replies::text(alloc, "passes spent"),
            },
            "enters" => {
                let most = number_at(line, 1)?;
                let mut count = 0u64;
                for _ in 0..most {
                    if entered(table).is_none() {
                        break;
                    }
                    count = count.wrapping_add(1);
                }
                replies::shown(alloc, &count)
            }
            "mark" => {
                let word = line.word(1).ok_or(Stop::Mistake("a mark has a name"))?;
                let name = Vec::from_slice(alloc, word)?;
                let Some(user) = self.callers.user(alloc, table, line.thread())? else {
                    return Err(Stop::Mistake("no pass is left for this caller"));
                };
                let mark = user.caller.mark();
                self.marks.push(Marked { name, mark })?;
                replies::text(alloc, "")
            }
            _ => self.learn(line),
        }
    }

    fn learn(&mut self, line: &Line) -> Reply {
        let alloc = self.alloc;
        let table = self.table.as_ref().ok_or(ENDED)?;
        let name = line.word(1).unwrap_or(&[]);
        let Some(user) = self.callers.user(alloc, table, line.thread())? else {
            return Err(Stop::Mistake("no pass is left for this caller"));
        };
        for marked in &self.marks {
            if marked.name.as_slice() == name {
                table.learn(&mut user.caller, &marked.mark);
                return replies::text(alloc, "");
            }
        }
        Err(Stop::Mistake("no mark has this name"))
    }

    // How many spares the evictor's caller has at its end.
    fn evictor_ends(&mut self) -> Reply {
        match self.evictor.take() {
            Some(evictor) => {
                let left = evictor.into_inner().into_caller().limbo_len();
                replies::shown(self.alloc, &left)
            }
            None => Err(Stop::Mistake("there is no evictor")),
        }
    }

    // The name of the spare that is taken out of the queue.
    fn take<R: Wait>(&mut self, rt: &R) -> Reply {
        match self.taker.as_mut() {
            Some(taker) => replies::name(self.alloc, taker.take(rt, &self.queue)),
            None => Err(Stop::Mistake("the evictor has the seat that takes")),
        }
    }

    /// A call that no other one is made beside.
    pub fn line<R: Threads + Wait + Sync>(&mut self, rt: &R, line: &Line) -> Reply {
        match line.call() {
            "close" | "close_on_threads" | "close_through" | "drain" => {
                close::call(rt, self, line)
            }
            "handed_over" => replies::pairs(self.alloc, &self.handed),
            "enter" | "enters" | "mark" | "learn" => self.entering(line),
            "evictor_ends" => self.evictor_ends(),
            "take" => self.take(rt),
            _ => {
                let table = self.table.as_ref().ok_or(ENDED)?;
                let (queue, evictor) = (&self.queue, &self.evictor);
                let sizes = (self.frames, self.buckets);
                let site = site_of(self.alloc, table, queue, evictor, &self.spares, sizes);
                self.callers.call(rt, &site, line)
            }
        }
    }

    // Plays the next line, or the next block. False where there is none, or another opening.
    fn step<R: Threads + Wait + Sync>(&mut self, rt: &R, playing: &mut Playing<'_>) -> bool {
        let Some(next) = playing.peek() else {
            return false;
        };
        if is_opening(next.call()) {
            return false;
        }
        if next.block != 0 {
            let lines = playing.block();
            block::play(rt, self, playing, lines);
            return true;
        }
        let Some(line) = playing.next() else {
            return false;
        };
        if line.call() == "open_scope" {
            scope::play(rt, self, playing, line);
            return true;
        }
        for _ in 0..2 {
            let reply = self.line(rt, line);
            if !playing.tell(line, told(self.alloc, reply)) {
                break;
            }
        }
        true
    }

    /// Plays what follows the opening.
    pub fn play<R: Threads + Wait + Sync>(&mut self, rt: &R, playing: &mut Playing<'_>) {
        for _ in 0..playing.case().lines.len() {
            if !self.step(rt, playing) {
                return;
            }
        }
    }
}
