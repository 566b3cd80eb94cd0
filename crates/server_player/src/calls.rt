//! The calls of a case, while a server is open.

use crate::clock::SetClock;
use crate::device::ALL;
use crate::draws::Draws;
use crate::gateway::Gateway;
use crate::opening::Opening;
use crate::requests::{is_request, request_of};
use crate::stage::Stage;
use crate::summary::Summary;
use anyhow::{Result, bail};
use case_files::{Line, Playing};
use server_commands::DEVICE_REASONS;
use std::alloc::Global;
use std::rt::Clock;
use std::sync::Wait;
use std::sync::atomic::{AtomicU64, Ordering};
use std::time::Duration;

/// The most requests of one line.
const MOST: u64 = 10_000;

/// How many seconds a server may take to end.
const PATIENCE: u64 = 60;

/// What was asked: by which client, and how often.
#[derive(Clone, Copy)]
struct SentRequest {
    client: usize,
    count: u64,
}

/// Who makes the calls of a case, while a server is open.
#[derive(Drop)]
pub struct Player<'a, R> {
    pub rt: &'a R,
    pub alloc: Global,
    stage: &'a Stage,
    gateway: Gateway<'a, R>,
}

/// A number of a line.
fn number_at(line: &Line, place: usize) -> Result<u64> {
    match line.number_at(place) {
        Some(number) => Ok(number),
        None => bail!("a number is missing"),
    }
}

/// How often a request is made, and its words.
fn repeated(line: &Line) -> Result<(u64, &[Vec<u8>])> {
    let count = number_at(line, 1)?;
    let words = line.rest(2);
    if count > MOST {
        bail!("a request is made at most {MOST} times");
    }
    Ok((count, words))
}

impl<'a, R> Player<'a, R> {
    pub fn new(rt: &'a R, alloc: Global, opening: &Opening, stage: &'a Stage) -> Result<Self> {
        let workers = opening.settings.workers;
        let gateway = Gateway::new(rt, alloc, &stage.wires, workers, opening.pieces)?;
        Ok(Player {
            rt,
            alloc,
            stage,
            gateway,
        })
    }

    fn nothing(&self) -> Result<String> {
        Ok(String::new(self.alloc))
    }

    /// `device fails`, `device fails 3`, `device works`: how many of the next calls fail.
    fn switch(&self, line: &Line, due: &AtomicU64) -> Result<String> {
        let count = match line.text_at(1) {
            Some("works") => 0,
            Some("fails") if line.words.len() == 2 => ALL,
            Some("fails") => number_at(line, 2)?,
            _ => bail!("a device fails or works"),
        };
        due.store(count, Ordering::SeqCst);
        self.nothing()
    }

    /// `tells objects 0 7`: a device tells how many it had when it last told, and how many it has.
    fn tells(&self, line: &Line) -> Result<String> {
        let (before, after) = (number_at(line, 2)?, number_at(line, 3)?);
        let usage = &self.stage.usage;
        match line.text_at(1) {
            Some("objects") => usage.tell_objects(before, after),
            Some("lost") => usage.tell_lost(before, after),
            Some("bytes") => usage.tell_bytes(before, after),
            Some("resting") => usage.tell_resting(before > 0, after > 0),
            _ => bail!("a device tells of objects, lost, bytes, resting or a failure"),
        }
        self.nothing()
    }

    /// `clock 5000`: the time of day, in milliseconds since 1970.
    fn set_clock(&self, line: &Line) -> Result<String> {
        self.stage
            .clock
            .store(number_at(line, 1)?, Ordering::SeqCst);
        self.nothing()
    }
}

impl<'a, R: Wait + Clock> Player<'a, R> {
    /// `tells failure 0`: a call of a device has failed, for the reason with this number, from 0 on.
    fn tells_failure(&self, line: &Line) -> Result<String> {
        let Some(reason) = DEVICE_REASONS.get(number_at(line, 2)? as usize) else {
            bail!("there is no such reason");
        };
        let clock = SetClock {
            rt: self.rt,
            now: &self.stage.clock,
        };
        self.stage.usage.tell_failure(*reason, &clock);
        self.nothing()
    }

    fn client(&mut self, line: &Line) -> Result<usize> {
        self.gateway.client(line.thread())
    }

    /// Sends a line's request so often.
    fn send(&mut self, line: &Line, words: &[Vec<u8>], count: u64) -> Result<SentRequest> {
        let client = self.client(line)?;
        let request = request_of(self.alloc, words)?;
        for _ in 0..count {
            self.gateway.send(client, request.as_slice())?;
        }
        Ok(SentRequest { client, count })
    }

    /// Sends what a line asks for.
    fn send_line(&mut self, line: &Line) -> Result<SentRequest> {
        match line.call() {
            "times" => {
                let (count, words) = repeated(line)?;
                self.send(line, words, count)
            }
            "raw" => {
                let client = self.client(line)?;
                let bytes = line.word(1).unwrap_or(b"");
                self.gateway.send(client, bytes)?;
                Ok(SentRequest { client, count: 1 })
            }
            _ if is_request(line.word(0).unwrap_or(b"")) => { self.send(line, line.rest(0), 1) }
            _ => bail!("no such call: tests/cases/server/README.md has them"),
        }
    }

    /// What was replied to what was asked.
    fn hear(&mut self, asked: SentRequest) -> Result<String> {
        let mut summary = Summary::new(self.alloc);
        for _ in 0..asked.count {
            match self.gateway.reply(asked.client)? {
                Some(told) => summary.add(told.text.as_str())?,
                None => summary.add("closed")?,
            }
        }
        summary.end()
    }

    /// `times N REQUEST`: each waits for the reply to the one before.
    fn ask_times(&mut self, line: &Line) -> Result<String> {
        let (count, words) = repeated(line)?;
        let mut summary = Summary::new(self.alloc);
        for _ in 0..count {
            let asked = self.send(line, words, 1)?;
            let reply = self.hear(asked)?;
            summary.add(reply.as_str())?;
        }
        summary.end()
    }

    /// What INFO tells of a section.
    pub fn ask_info(&mut self, line: &Line, section: &[u8]) -> Result<String> {
        let mut words = Vec::new(self.alloc);
        for word in [b"INFO".as_slice(), section] {
            let mut own = Vec::new(self.alloc);
            own.extend_from_slice(word)?;
            words.push(own)?;
        }
        let asked = self.send(line, words.as_slice(), 1)?;
        self.hear(asked)
    }

    /// `draws N above=A below=B`: RANDOMKEY, so often.
    fn draw(&mut self, line: &Line, draws: &mut Draws) -> Result<String> {
        let count = number_at(line, 1)?;
        if count > MOST {
            bail!("at most {MOST} keys are drawn");
        }
        let mut word = Vec::new(self.alloc);
        word.extend_from_slice(b"RANDOMKEY")?;
        let words = Vec::from_array(self.alloc, [word])?;
        let asked = self.send(line, words.as_slice(), count)?;
        draws.begin()?;
        for _ in 0..count {
            match self.gateway.reply(asked.client)? {
                Some(told) => draws.add(told.text.as_str())?,
                None => bail!("the connection is closed"),
            }
        }
        let (Some(above), Some(below)) = (
            line.number_named("above", 0),
            line.number_named("below", u64::MAX),
        ) else {
            bail!("behind above= and below= stand numbers");
        };
        draws.between(above, below)
    }

    /// `drawn`: whether the last draws were those before.
    fn drawn(&self, draws: &Draws) -> Result<String> {
        let text = if draws.are_alike() {
            "alike"
        } else {
            "otherwise"
        };
        Ok(format!(in self.alloc; "{text}")?)
    }

    /// `ends`: all clients leave, and how each worker ends.
    fn end(&mut self) -> Result<String> {
        self.gateway.end()?;
        match self
            .stage
            .wires
            .ends(self.rt, Duration::from_secs(PATIENCE))
        {
            Some(ends) => Ok(ends),
            None => bail!("the server does not end"),
        }
    }

    fn close(&mut self, line: &Line) -> Result<String> {
        let client = self.client(line)?;
        self.gateway.close(client)?;
        self.nothing()
    }

    fn cut(&mut self, line: &Line) -> Result<String> {
        let client = self.client(line)?;
        self.gateway.cut(client)?;
        self.nothing()
    }

    /// Makes the call of a line.
    fn call(&mut self, line: &Line, draws: &mut Draws) -> Result<String> {
        let stage = self.stage;
        match line.call() {
            "close" => self.close(line),
            "cut" => self.cut(line),
            "ends" => self.end(),
            "clock" => self.set_clock(line),
            "device" => self.switch(line, &stage.device),
            "spool" => self.switch(line, &stage.spool),
            "tells" if line.text_at(1) == Some("failure") => self.tells_failure(line),
            "tells" => self.tells(line),
            "info" => self.info(line),
            "until" => self.until(line),
            "rests" => self.rests(line),
            "changes" => self.changes(line),
            "draws" => self.draw(line, draws),
            "drawn" => self.drawn(draws),
            "times" => self.ask_times(line),
            _ => {
                let asked = self.send_line(line)?;
                self.hear(asked)
            }
        }
    }

    /// Plays lines side by side: all are sent before the first reply is waited for.
    fn play_block(&mut self, block: &[Line], playing: &mut Playing<'_>) -> Result<()> {
        let mut sent = Vec::new(self.alloc);
        for line in block {
            sent.push(self.send_line(line))?;
        }
        for (line, asked) in block.iter().zip(sent) {
            let reply = match asked {
                Ok(asked) => self.hear(asked),
                Err(mistake) => Err(mistake),
            };
            let _ = playing.tell(line, reply);
        }
        Ok(())
    }

    /// Plays the next line or lines. None are left where another server is opened.
    fn play_next(&mut self, draws: &mut Draws, playing: &mut Playing<'_>) -> Result<bool> {
        match playing.peek() {
            None => return Ok(false),
            Some(line) if line.call() == "server" => return Ok(false),
            Some(_) => {}
        }
        let block = playing.block();
        if !block.is_empty() {
            self.play_block(block, playing)?;
            return Ok(true);
        }
        if let Some(line) = playing.next() {
            let reply = self.call(line, draws);
            let _ = playing.tell(line, reply);
        }
        Ok(true)
    }

    /// Plays the lines until another server is opened.
    pub fn play(&mut self, draws: &mut Draws, playing: &mut Playing<'_>) -> Result<()> {
        for _ in 0..playing.case().lines.len() {
            if !self.play_next(draws, playing)? {
                break;
            }
        }
        self.gateway.end()
    }
}
