//! A device over two named pipes. Files do as well: what stands in the one is what the store replies, and behind it the end.

use crate::calls::call;
use crate::folders::own_folder;
use crate::world::{World, fault, flag, nothing, run, shown, small, text, word};
use anyhow::{Result, bail};
use case_files::{Line, Playing};
use resp_device::{Pipes, RespDevice};
use std::alloc::Global;
use std::fs;
use std::fs::File;
use std::random::RandomSource;
use std::rt::{Env, Files};

/// Two pipes, and the device over them, once it is opened.
#[derive(Drop)]
struct Named<R> {
    rt: R,
    alloc: Global,
    input: String,
    output: String,
    device: Option<RespDevice<Pipes<File, File>>>,
}

pub(crate) fn play<R>(rt: &R, alloc: Global, first: &Line, playing: &mut Playing<'_>) -> Result<()>
where
    R: AllocGlobal + Env + Files<File = File> + RandomSource + Copy + Drop,
{
    let root = own_folder(rt, alloc)?;
    let mut world = Named {
        rt: *rt,
        alloc,
        input: format!(in alloc; "{}/replies", root.as_str())?,
        output: format!(in alloc; "{}/requests", root.as_str())?,
        device: None,
    };
    run(alloc, first, playing, &mut world);
    fs::remove_dir_all(rt, root.as_str())?;
    Ok(())
}

impl<R> Named<R>
where
    R: AllocGlobal + Files<File = File> + RandomSource + Copy + Drop,
{
    fn open(&mut self, line: &Line) -> Result<String> {
        let Ok(lane) = u8::try_from(small(line, 1)?) else {
            bail!("a lane is below 256");
        };
        match RespDevice::open(&self.rt, self.input.as_str(), self.output.as_str(), lane) {
            Ok(device) => {
                self.device = Some(device);
                nothing(self.alloc)
            }
            Err(why) => fault(self.alloc, &why),
        }
    }

    /// Gives the device the same two pipes, opened again.
    fn reconnect(&mut self) -> Result<String> {
        let Some(device) = &mut self.device else {
            bail!("there is no device");
        };
        match Pipes::open(&self.rt, self.input.as_str(), self.output.as_str()) {
            Ok(pipes) => {
                device.reconnect(pipes);
                nothing(self.alloc)
            }
            Err(why) => fault(self.alloc, &why),
        }
    }

    /// What was asked, by its length, its beginning and its end.
    fn asked(&self, line: &Line) -> Result<String> {
        let asked = fs::read(&self.rt, self.output.as_str())?;
        match line.call() {
            "asked_bytes" => shown(self.alloc, &asked.len()),
            "asked_begins" => flag(self.alloc, asked.as_slice().starts_with(word(line, 1)?)),
            _ => flag(self.alloc, asked.as_slice().ends_with(word(line, 1)?)),
        }
    }

    fn call_device(&mut self, line: &Line) -> Result<String> {
        let Some(device) = &mut self.device else {
            bail!("there is no device");
        };
        match line.call() {
            "last_failure" => match device.last_failure() {
                None => text(self.alloc, "none"),
                Some(why) => fault(self.alloc, &why),
            },
            _ => call(self.alloc, device, line),
        }
    }
}

impl<R> World for Named<R>
where
    R: AllocGlobal + Files<File = File> + RandomSource + Copy + Drop,
{
    fn call(&mut self, line: &Line) -> Result<String> {
        match line.call() {
            "answers" => {
                let text = line.text_at(1).unwrap_or("");
                fs::write(&self.rt, self.input.as_str(), text)?;
                fs::write(&self.rt, self.output.as_str(), "")?;
                nothing(self.alloc)
            }
            "open" => self.open(line),
            "reconnect" => self.reconnect(),
            "asked_bytes" | "asked_begins" | "asked_ends" => self.asked(line),
            _ => self.call_device(line),
        }
    }
}
