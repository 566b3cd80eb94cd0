//! One run of a case's map, from its opening to its end.

use crate::opening::{Kind, Opening};
use crate::pairs::Pairs;
use crate::renewals::{Renewal, renewals_of};
use crate::replies::{OUT_OF_MEMORY, Said, Stop, own, plain};
use crate::stage::{Stage, Told};
use crate::taker::Taker;
use crate::walk::Walk;
use case_files::Line;
use far_map::{
    Blob, MapFault, MapRefusal, Text, Value, run, run_apart, run_bundled, run_renewed, run_through,
    text,
};
use far_pairs::{Bundle, in_key_order};
use std::alloc::{AllocError, Global};
use std::sync::Wait;
use std::sync::atomic::Ordering;
use std::thread::Threads;

/// What a run said: of its opening, of its lines, and of its end.
#[derive(Drop)]
pub struct Ran {
    pub opening: Said,
    pub told: Vec<Told>,
    pub renewals: Vec<Said>,
    pub close: Said,
}

/// How the pairs of a run's end are told: as its line `close` asks for, where there is one.
fn pairs_said<V: Value>(alloc: Global, pairs: Pairs<V>, close: &Line) -> Said {
    if close.call() != "close" {
        return pairs.in_turn(alloc);
    }
    if close.is(1, "count") {
        return pairs.sum().counted(alloc);
    }
    if close.is(1, "sum") {
        return pairs.sum().said(alloc);
    }
    pairs.in_turn(alloc)
}

/// A run that gives all pairs, or nothing.
fn run_plain<V: Value + Send + Sync, R: Threads + Wait + Sync>(
    rt: &R,
    alloc: Global,
    opening: &Opening<'_>,
    stage: &Stage<'_>,
    close: &Line,
) -> Result<Said, MapFault> {
    let Ok(devices) = opening.devices(alloc, &stage.gate) else {
        return Err(MapFault::Memory);
    };
    let (settings, threads) = (opening.settings, opening.threads);
    if opening.kind == Kind::Apart {
        run_apart::<V, _, _, R>(rt, alloc, settings, devices, threads, stage)?;
        return Ok(plain(alloc, ""));
    }
    let (_, pairs) = run::<V, _, _, R>(rt, alloc, settings, devices, threads, stage)?;
    Ok(pairs_said(alloc, Pairs::of(pairs), close))
}

/// A run that hands its pairs to a taker. A fault at the end is told behind what was handed over.
fn run_to_taker<R: Threads + Wait + Sync>(
    rt: &R,
    alloc: Global,
    opening: &Opening<'_>,
    stage: &Stage<'_>,
    close: &Line,
) -> Result<Said, MapFault> {
    let Ok(devices) = opening.devices(alloc, &stage.gate) else {
        return Err(MapFault::Memory);
    };
    let (settings, threads) = (opening.settings, opening.threads);
    let mut taker = Taker::new(alloc, opening.takes);
    let ended = run_through::<Text, _, _, _, R>(
        rt, alloc, settings, devices, threads, stage, &mut taker,
    );
    let (_, ended) = ended?;
    let said = pairs_said(alloc, Pairs::of(taker.pairs), close);
    Ok(match ended {
        Ok(()) => said,
        Err(fault) => with_fault(alloc, said, fault),
    })
}

/// The pairs of bundles, as they are lent in key order. A text is written behind two bytes that say how long it is.
fn pairs_of<R: Threads + Sync>(
    rt: &R,
    alloc: Global,
    bundles: &[Bundle<Text, Text>],
) -> Result<Pairs<Text>, Stop> {
    let Ok(lists) = in_key_order(rt, alloc, bundles) else {
        return Err(OUT_OF_MEMORY);
    };
    let mut pairs: Pairs<Text> = Pairs::new(alloc);
    for list in &lists {
        for pair in list {
            let key = own(text(alloc, pair.key().get(2..).unwrap_or(&[])))?;
            let value = own(text(alloc, pair.value().get(2..).unwrap_or(&[])))?;
            pairs.add(key, value);
        }
    }
    Ok(pairs)
}

/// A run that gives its pairs in bundles.
fn run_to_bundles<R: Threads + Wait + Sync>(
    rt: &R,
    alloc: Global,
    opening: &Opening<'_>,
    stage: &Stage<'_>,
    close: &Line,
) -> Result<Said, MapFault> {
    let Ok(devices) = opening.devices(alloc, &stage.gate) else {
        return Err(MapFault::Memory);
    };
    let (settings, threads) = (opening.settings, opening.threads);
    let (_, ended) = run_bundled::<Text, _, _, R>(rt, alloc, settings, devices, threads, stage)?;
    let bundles = ended?;
    Ok(match pairs_of(rt, alloc, bundles.as_slice()) {
        Ok(pairs) => pairs_said(alloc, pairs, close),
        Err(stop) => Err(stop),
    })
}

fn with_fault(alloc: Global, said: Said, fault: MapFault) -> Said {
    let said = said?;
    Ok(format!(in alloc; "{said}, {fault}")?)
}

/// The workers before their first term.
fn walks(alloc: Global, threads: u32) -> Result<Vec<Walk>, AllocError> {
    let mut walks = Vec::new(alloc);
    for worker in 0..threads {
        walks.push(Walk::new(worker))?;
    }
    Ok(walks)
}

fn lost_said(alloc: Global, lost: u64) -> Said {
    Ok(format!(in alloc; "lost {lost}")?)
}

/// A run of several generations.
fn run_stints<R: Threads + Wait + Sync>(
    rt: &R,
    alloc: Global,
    opening: &Opening<'_>,
    stage: &Stage<'_>,
) -> Result<Said, MapFault> {
    let Ok(devices) = opening.devices(alloc, &stage.gate) else {
        return Err(MapFault::Memory);
    };
    let Ok(spool) = opening.spool(alloc) else {
        return Err(MapFault::Memory);
    };
    let Ok(states) = walks(alloc, opening.threads) else {
        return Err(MapFault::Memory);
    };
    let renewed = run_renewed::<Text, _, _, R>(
        rt,
        alloc,
        opening.settings,
        devices,
        spool,
        stage,
        states,
    )?;
    Ok(lost_said(alloc, renewed.lost))
}

fn run_kind<R: Threads + Wait + Sync>(
    rt: &R,
    alloc: Global,
    opening: &Opening<'_>,
    stage: &Stage<'_>,
    close: &Line,
) -> Result<Said, MapFault> {
    match opening.kind {
        Kind::Through => run_to_taker(rt, alloc, opening, stage, close),
        Kind::Bundled => run_to_bundles(rt, alloc, opening, stage, close),
        Kind::Renewed => run_stints(rt, alloc, opening, stage),
        Kind::Pairs | Kind::Apart => {
            if opening.is_of_blobs {
                run_plain::<Blob, R>(rt, alloc, opening, stage, close)
            } else {
                run_plain::<Text, R>(rt, alloc, opening, stage, close)
            }
        }
    }
}

/// A fault as a reply.
fn fault_said(alloc: Global, fault: MapFault) -> Said {
    Ok(format!(in alloc; "{fault}")?)
}

/// What was said by the lines, and how the run ended.
fn collect(
    alloc: Global,
    lines: &[Line],
    stage: Stage<'_>,
    ended: Result<Said, MapFault>,
) -> Result<Ran, Stop> {
    let has_begun = stage.has_begun.load(Ordering::SeqCst);
    let mut renewals = Vec::new(alloc);
    for line in lines {
        if line.call() == "renew" {
            if let Some(renewal) = stage.renewals.get(renewals.len()) {
                renewals.push(renewal.said(alloc, line))?;
            }
        }
    }
    let (opening, close) = match ended {
        Ok(close) => (plain(alloc, ""), close),
        Err(fault) if has_begun => (plain(alloc, ""), fault_said(alloc, fault)),
        Err(fault) => (
            fault_said(alloc, fault),
            Err(Stop::Mistake("the map was not opened")),
        ),
    };
    let told = stage.into_told();
    Ok(Ran {
        opening,
        told,
        renewals,
        close,
    })
}

/// Plays the lines of a case, of which this is the opening.
pub fn run_case<R: Threads + Wait + Sync>(
    rt: &R,
    alloc: Global,
    first: &Line,
    lines: &[Line],
) -> Result<Ran, Stop> {
    let opening = Opening::read(first)?;
    let gate = opening.gate(alloc)?;
    let renewals = renewals_of(alloc, lines)?;
    let stage = Stage::new(alloc, lines, opening.threads, gate, renewals)?;
    let close = lines
        .iter()
        .find(|line| line.call() == "close")
        .unwrap_or(first);
    let ended = run_kind(rt, alloc, &opening, &stage, close);
    collect(alloc, lines, stage, ended)
}
