//! Plays the cases of a file, each by the player of the layer that its first call is of.

use anyhow::{Result, bail};
use case_files::{Case, Difference, Playing, read_cases};
use std::alloc::Global;
use std::fs;
use std::fs::File;
use std::random::RandomSource;
use std::rt::{Clock, Env, Files};
use std::sync::Wait;
use std::thread::Threads;

/// How many cases were played so far, and how many went otherwise.
#[derive(Drop)]
pub struct Played {
    host: HostRuntime,
    is_refused: bool,
    cases: u64,
    wrong: u64,
}

/// Plays the case by the player of its layer.
fn play_by<R>(
    rt: &R,
    host: HostRuntime,
    alloc: Global,
    opening: &str,
    playing: &mut Playing<'_>,
) -> Result<()>
where
    R: AllocGlobal
        + Clock
        + Env
        + Files<File = File>
        + RandomSource
        + Threads
        + Wait
        + Copy
        + Drop
        + Send
        + Sync,
{
    if object_player::OPENINGS.contains(&opening) {
        object_player::play(rt, host, alloc, playing);
    } else if row_player::OPENINGS.contains(&opening) {
        row_player::play(rt, alloc, playing);
    } else if table_player::OPENINGS.contains(&opening) {
        table_player::play(rt, alloc, playing);
    } else if map_player::OPENINGS.contains(&opening) {
        map_player::play(rt, alloc, playing);
    } else if program_player::OPENINGS.contains(&opening) {
        program_player::play(rt, alloc, playing);
    } else if request_player::OPENINGS.contains(&opening) {
        request_player::play(rt, alloc, playing);
    } else if server_player::OPENINGS.contains(&opening) {
        server_player::play(rt, alloc, playing);
    } else {
        bail!(
            "no case begins with `{opening}`: the READMEs of tests/cases have the calls that open something"
        )
    }
    Ok(())
}

fn play<R>(rt: &R, host: HostRuntime, alloc: Global, playing: &mut Playing<'_>) -> Result<()>
where
    R: AllocGlobal
        + Clock
        + Env
        + Files<File = File>
        + RandomSource
        + Threads
        + Wait
        + Copy
        + Drop
        + Send
        + Sync,
{
    let Some(first) = playing.peek() else {
        bail!("the case has no call");
    };
    play_by(rt, host, alloc, first.call(), playing)
}

/// The text that a line has to reply.
fn expected<'c>(case: &'c Case, number: u32) -> &'c str {
    for line in &case.lines {
        if line.number == number {
            return str::from_utf8(line.reply.as_slice()).unwrap_or("");
        }
    }
    ""
}

/// Prints where the case went otherwise.
fn tell<R: Print>(rt: &R, path: &str, case: &Case, difference: Difference) -> Result<()> {
    let name = str::from_utf8(case.name.as_slice()).unwrap_or("");
    println!(rt; "{path}:{}: {name}", difference.line)?;
    println!(rt; "    expected: {}", expected(case, difference.line))?;
    match difference.found {
        Ok(found) => println!(rt; "    found:    {found}")?,
        Err(mistake) => println!(rt; "    can't be made: {mistake}")?,
    }
    Ok(())
}

impl Played {
    pub fn new(host: HostRuntime, is_refused: bool) -> Played {
        Played {
            host,
            is_refused,
            cases: 0,
            wrong: 0,
        }
    }

    fn play_case<R>(&mut self, rt: &R, path: &str, case: &Case) -> Result<()>
    where
        R: AllocGlobal
            + Clock
            + Env
            + Files<File = File>
            + Print
            + RandomSource
            + Threads
            + Wait
            + Copy
            + Drop
            + Send
            + Sync,
    {
        self.cases = self.cases.saturating_add(1);
        let mut playing = Playing::new(case, self.is_refused);
        if let Err(mistake) = play(rt, self.host, rt.alloc(), &mut playing) {
            let found = Err(mistake);
            let line = case.lines.first().map_or(case.number, |first| first.number);
            self.wrong = self.wrong.saturating_add(1);
            return tell(rt, path, case, Difference { line, found });
        }
        if let Some(line) = playing.refused() {
            println!(rt; "{path}:{}: made again: {}", line.number, line.call())?;
        }
        if let Some(line) = playing.next() {
            bail!(
                "{path}:{}: the player left the case before its end",
                line.number
            );
        }
        match playing.into_difference() {
            None => Ok(()),
            Some(difference) => {
                self.wrong = self.wrong.saturating_add(1);
                tell(rt, path, case, difference)
            }
        }
    }

    /// Plays the cases of a file.
    pub fn play<R>(&mut self, rt: &R, path: &str) -> Result<()>
    where
        R: AllocGlobal
            + Clock
            + Env
            + Files<File = File>
            + Print
            + RandomSource
            + Threads
            + Wait
            + Copy
            + Drop
            + Send
            + Sync,
    {
        let file = match fs::read_to_string(rt, path) {
            Ok(file) => file,
            Err(why) => bail!("{path}: {why}"),
        };
        let cases = match read_cases(rt.alloc(), file.as_bytes()) {
            Ok(cases) => cases,
            Err(fault) => bail!("{path}: {fault}"),
        };
        for case in &cases {
            self.play_case(rt, path, case)?;
        }
        Ok(())
    }

    /// Prints how many cases passed, and gives the program's status.
    pub fn end<R: Print>(self, rt: &R) -> Result<u8> {
        let passed = self.cases.saturating_sub(self.wrong);
        println!(rt; "{passed} passed, {} failed", self.wrong)?;
        Ok(u8::from(self.wrong != 0))
    }
}
