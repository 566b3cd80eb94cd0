//! Lines that are played side by side: those of each named caller by a thread of its own.

use crate::datum::Datum;
use crate::site::Site;
use crate::stop::{Reply, Stop, told};
use crate::user::User;
use crate::world::{Callers, ENDED, World, site_of};
use crate::{calls, crowd};
use case_files::{Line, Playing};
use far_device::Device;
use std::alloc::Global;
use std::sync::Wait;
use std::sync::atomic::AtomicU64;
use std::sync::atomic::Ordering::SeqCst;
use std::thread::{Threads, map_vec, yield_now};
use swapper::{QueueNaming, QueueSeat};
use version_words::Naming;

/// How often a thread looks whether the others have come.
const MOST_LOOKS: u64 = 1_000_000_000;

/// Where the threads of a block wait for one another.
#[derive(Drop)]
pub struct Meeting {
    /// How many threads there are.
    threads: u64,
    /// How often a thread has come to a line `meet`.
    come: AtomicU64,
    /// How many threads have no line that goes on until the others have ended, and how many of these have ended.
    workers: u64,
    ended: AtomicU64,
}

impl Meeting {
    // Waits until each thread has come so often.
    fn meet(&self, times: u64) -> Result<(), Stop> {
        self.come.fetch_add(1, SeqCst);
        for _ in 0..MOST_LOOKS {
            if self.come.load(SeqCst) >= self.threads.saturating_mul(times) {
                return Ok(());
            }
            yield_now();
        }
        Err(Stop::Mistake("the others did not come"))
    }

    /// Whether all threads have ended that others go on beside.
    pub fn is_over(&self) -> bool {
        self.ended.load(SeqCst) >= self.workers
    }
}

/// What a thread does.
#[derive(Drop)]
struct Job<'c, T: Datum, J: Naming, B: QueueNaming> {
    name: &'c [u8],
    user: Option<User<T, J, B>>,
    seat: Option<QueueSeat<T, T, J, B>>,
    lines: Vec<&'c Line>,
    replies: Vec<Reply>,
}

/// What a thread has done: its caller, and the replies, the last first.
#[derive(Drop)]
struct Done<'c, T: Datum, J: Naming, B: QueueNaming> {
    name: &'c [u8],
    user: Option<User<T, J, B>>,
    replies: Vec<Reply>,
}

// Whether the line goes on until the other threads have ended.
fn is_meanwhile(line: &Line) -> bool {
    line.call().ends_with("_meanwhile")
}

impl<'c, T: Datum, J: Naming, B: QueueNaming> Job<'c, T, J, B> {
    // The job of the thread of this name, with its caller where it has entered before.
    fn new(alloc: Global, callers: &mut Callers<T, J, B>, name: &'c [u8]) -> Self {
        let mut user = None;
        let mut seat = None;
        match callers.place(name) {
            Some(place) if place < callers.users.len() => {
                user = Some(callers.users.remove(place));
            }
            _ => seat = callers.seats.pop(),
        }
        Job {
            name,
            user,
            seat,
            lines: Vec::new(alloc),
            replies: Vec::new(alloc),
        }
    }

    // Plays the lines. Who has not entered yet enters first.
    fn run<D: Device, R: Wait>(
        self,
        rt: &R,
        site: &Site<'_, T, J, B, D>,
        meeting: &Meeting,
    ) -> Done<'c, T, J, B> {
        let Job {
            name,
            user,
            seat,
            lines,
            mut replies,
        } = self;
        let mut user = match user {
            Some(user) => Some(user),
            None => match Vec::from_slice(site.alloc, name) {
                Ok(name) => User::enter(site.table, name, seat),
                Err(_) => None,
            },
        };
        let mut meets = 0u64;
        for line in &lines {
            let reply = match &mut user {
                None => Err(Stop::Mistake("no pass is left for this caller")),
                Some(user) => {
                    if line.call() == "meet" {
                        meets = meets.wrapping_add(1);
                    }
                    line_of(rt, site, meeting, user, line, meets)
                }
            };
            let _ = replies.push(reply);
        }
        if !lines.iter().any(|line| is_meanwhile(line)) {
            meeting.ended.fetch_add(1, SeqCst);
        }
        replies.reverse();
        Done {
            name,
            user,
            replies,
        }
    }
}

// A line of a thread.
fn line_of<T: Datum, J: Naming, B: QueueNaming, D: Device, R: Wait>(
    rt: &R,
    site: &Site<'_, T, J, B, D>,
    meeting: &Meeting,
    user: &mut User<T, J, B>,
    line: &Line,
    meets: u64,
) -> Reply {
    match line.call() {
        "meet" => {
            meeting.meet(meets)?;
            Ok(String::new(site.alloc))
        }
        "own_keys" | "work" | "swap_outs_meanwhile" | "evicts_meanwhile" => {
            crowd::call(rt, site, meeting, user, line)
        }
        _ => calls::call(rt, site, user, line),
    }
}

// The place of the thread with this name.
fn place_of<T: Datum, J: Naming, B: QueueNaming>(
    jobs: &[Job<'_, T, J, B>],
    name: &[u8],
) -> Option<usize> {
    for (place, job) in jobs.iter().enumerate() {
        if job.name == name {
            return Some(place);
        }
    }
    None
}

// The threads of a block, in the order of their first lines.
fn jobs_of<'c, T: Datum, J: Naming, B: QueueNaming>(
    alloc: Global,
    callers: &mut Callers<T, J, B>,
    lines: &'c [Line],
) -> Result<Vec<Job<'c, T, J, B>>, Stop> {
    let mut jobs: Vec<Job<'c, T, J, B>> = Vec::new(alloc);
    for line in lines {
        let name = line.thread();
        if place_of(jobs.as_slice(), name).is_none() {
            let mut job = Job::new(alloc, callers, name);
            job.replies.reserve(lines.len())?;
            jobs.push(job)?;
        }
        if let Some(place) = place_of(jobs.as_slice(), name) {
            if let Some(job) = jobs.get_mut(place) {
                job.lines.push(line)?;
            }
        }
    }
    Ok(jobs)
}

// Whether each thread comes to as many lines `meet` as the first one.
fn meet_alike<T: Datum, J: Naming, B: QueueNaming>(jobs: &[Job<'_, T, J, B>]) -> bool {
    let mut first = None;
    for job in jobs {
        let meets = job
            .lines
            .iter()
            .filter(|line| line.call() == "meet")
            .count();
        if first.is_none() {
            first = Some(meets);
        }
        if first != Some(meets) {
            return false;
        }
    }
    true
}

fn meeting_of<T: Datum, J: Naming, B: QueueNaming>(jobs: &[Job<'_, T, J, B>]) -> Meeting {
    let mut workers = 0u64;
    for job in jobs {
        if !job.lines.iter().any(|line| is_meanwhile(line)) {
            workers = workers.saturating_add(1);
        }
    }
    Meeting {
        threads: jobs.len() as u64,
        come: AtomicU64::new(0),
        workers,
        ended: AtomicU64::new(0),
    }
}

// Runs the threads.
fn run<'c, T, J, B, D, R>(
    rt: &R,
    world: &mut World<T, J, B, D>,
    lines: &'c [Line],
) -> Result<Vec<Done<'c, T, J, B>>, Stop>
where
    T: Datum + Send + Sync,
    J: Naming + Send + Sync,
    B: QueueNaming + Send + Sync,
    D: Device + Send,
    R: Threads + Wait + Sync,
{
    let table = world.table.as_ref().ok_or(ENDED)?;
    let jobs = jobs_of(world.alloc, &mut world.callers, lines)?;
    if !meet_alike(jobs.as_slice()) {
        return Err(Stop::Mistake("each thread of a block meets the others as often"));
    }
    let meeting = meeting_of(jobs.as_slice());
    let sizes = (world.frames, world.buckets);
    let site = site_of(
        world.alloc,
        table,
        &world.queue,
        &world.evictor,
        &world.spares,
        sizes,
    );
    run_all(rt, &site, &meeting, jobs)
}

// Runs the threads beside one another.
fn run_all<'c, T, J, B, D, R>(
    rt: &R,
    site: &Site<'_, T, J, B, D>,
    meeting: &Meeting,
    jobs: Vec<Job<'c, T, J, B>>,
) -> Result<Vec<Done<'c, T, J, B>>, Stop>
where
    T: Datum + Send + Sync,
    J: Naming + Send + Sync,
    B: QueueNaming + Send + Sync,
    D: Device + Send,
    R: Threads + Wait + Sync,
{
    let done = map_vec(rt, jobs, &|job| job.run(rt, site, meeting))?;
    Ok(done)
}

// The next reply of the thread with this name.
fn next_reply<T: Datum, J: Naming, B: QueueNaming>(
    done: &mut [Done<'_, T, J, B>],
    name: &[u8],
) -> Reply {
    for one in done {
        if one.name == name {
            return one.replies.pop().unwrap_or(Err(Stop::Memory));
        }
    }
    Err(Stop::Memory)
}

/// Plays the lines of a block, and tells their replies in the order of the lines.
pub fn play<'c, T, J, B, D, R>(
    rt: &R,
    world: &mut World<T, J, B, D>,
    playing: &mut Playing<'_>,
    lines: &'c [Line],
)
where
    T: Datum + Send + Sync,
    J: Naming + Send + Sync,
    B: QueueNaming + Send + Sync,
    D: Device + Send,
    R: Threads + Wait + Sync,
{
    let mut done = match run(rt, world, lines) {
        Ok(done) => done,
        Err(stop) => {
            if let Some(line) = lines.first() {
                let _ = playing.tell(line, told(world.alloc, Err(stop)));
            }
            return;
        }
    };
    for line in lines {
        let reply = next_reply(done.as_mut_slice(), line.thread());
        let _ = playing.tell(line, told(world.alloc, reply));
    }
    for one in done {
        let Done {
            name: _,
            user,
            replies: _,
        } = one;
        if let Some(user) = user {
            let _ = world.callers.users.push(user);
        }
    }
}
