//! A worker over bytes in memory, served by one service, or by another behind it.
ghost use Rattle.std.specs.Prelude.{[]};

use crate::manners::{Manner, Manners};
use crate::mistake::Mistake;
use request_loop::{Duplex, Holds, LoopFault, Pause, Service, Wire, serve_on, serve_over};
use resp::Limits;
use std::alloc::Global;

/// How a worker is served.
#[derive(Clone, Copy)]
pub(crate) struct Serving {
    pub(crate) limits: Limits,
    pub(crate) one: Manner,
    /// Who goes on where the first leaves.
    pub(crate) other: Option<Manner>,
    /// How many bytes they say to LONG.
    pub(crate) long: usize,
}

/// How a worker ended.
#[derive(Clone, Copy, PartialEq, Eq)]
pub(crate) enum Ended {
    /// There were no more packets.
    Over,
    /// Its service left.
    Left,
    Fault(LoopFault),
}

/// What a worker wrote, and how it ended. Of one that a fault ended it is not known what it wrote.
#[derive(Drop)]
pub(crate) struct Ran {
    pub(crate) written: Vec<u8>,
    pub(crate) ended: Ended,
}

/// Serves by the one until it leaves, and then by the other. Why each left.
fn serve_by_both<D: Duplex, S: Service, T: Service>(
    alloc: Global,
    duplex: &mut D,
    one: &mut S,
    other: &mut T,
) -> Result<(Pause, Pause), LoopFault>
    requires { D.tells duplex.old duplex.old [] [] }
{
    let left = serve_on(alloc, duplex, one, Holds::none(alloc))?;
    let ended = serve_on(alloc, duplex, other, left.1)?;
    Ok((left.0, ended.0))
}

fn run_by_both(
    alloc: Global,
    serving: Serving,
    came: &[u8],
    other: Manner,
) -> Result<Ran, Mistake> {
    let mut one = Manners::new(alloc, serving.one, serving.long)?;
    let mut other = Manners::new(alloc, other, serving.long)?;
    let mut wire = Wire::new(alloc, came, Vec::new(alloc), serving.limits);
    let served = serve_by_both(alloc, &mut wire, &mut one, &mut other);
    let (_, written) = wire.into_parts();
    let ended = match served {
        Ok((_, Pause::Wake)) => Ended::Left,
        Ok((_, Pause::End)) => Ended::Over,
        Err(fault) => Ended::Fault(fault),
    };
    Ok(Ran { written, ended })
}

fn run_by_one(alloc: Global, serving: Serving, came: &[u8]) -> Result<Ran, Mistake> {
    let mut one = Manners::new(alloc, serving.one, serving.long)?;
    let output = Vec::new(alloc);
    match serve_over(alloc, came, output, serving.limits, &mut one) {
        Ok((_, written)) => {
            let ended = if one.has_left() {
                Ended::Left
            } else {
                Ended::Over
            };
            Ok(Ran { written, ended })
        }
        Err(fault) => Ok(Ran {
            written: Vec::new(alloc),
            ended: Ended::Fault(fault),
        }),
    }
}

fn run_once(alloc: Global, serving: Serving, came: &[u8]) -> Result<Ran, Mistake> {
    match serving.other {
        Some(other) => run_by_both(alloc, serving, came, other),
        None => run_by_one(alloc, serving, came),
    }
}

/// Runs a worker over these bytes from its beginning. It is run twice, since one that is refused a growth may close a connection
/// and go on: where the runs differ, a growth was refused to one of them.
pub(crate) fn run(alloc: Global, serving: Serving, came: &[u8]) -> Result<Ran, Mistake> {
    let ran = run_once(alloc, serving, came)?;
    let again = run_once(alloc, serving, came)?;
    if ran.ended == again.ended && ran.written.as_slice() == again.written.as_slice() {
        Ok(ran)
    } else {
        Err(Mistake::Memory)
    }
}
