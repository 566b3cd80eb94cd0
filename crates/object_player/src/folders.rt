//! Devices in folders: one for each lane, or one after another.

use crate::calls::call;
use crate::world::{World, fault, nothing, run, shown, small, text, unknown};
use anyhow::{Result, bail};
use case_files::{Line, Playing};
use file_device::{FileDevice, FileDisk, ScratchFolder, open_lanes};
use std::alloc::Global;
use std::fs::File;
use std::random::RandomSource;
use std::rt::{Env, Files};
use std::{env, fs};

/// A folder of the case's own.
#[derive(Drop)]
struct Place {
    rt: HostRuntime,
    alloc: Global,
    root: String,
}

/// The folder, and the devices that were opened in folders of it.
#[derive(Drop)]
struct Folders {
    place: Place,
    devices: Vec<FileDevice<FileDisk<ScratchFolder<HostRuntime>>>>,
}

/// A folder that nothing else has, in the system's folder for what lives short.
pub(crate) fn own_folder<R>(rt: &R, alloc: Global) -> Result<String>
where
    R: AllocGlobal + Env + Files<File = File> + RandomSource,
{
    let temporary = env::temp_dir(rt)?;
    let mut token = [0; 8];
    rt.fill_bytes(&mut token)?;
    let token = u64::from_le_bytes(token);
    let folder = format!(in alloc; "{}/fazhitta-case-{token:016x}", temporary.as_str())?;
    fs::create_dir(rt, folder.as_str())?;
    Ok(folder)
}

pub(crate) fn play(
    rt: HostRuntime,
    alloc: Global,
    first: &Line,
    playing: &mut Playing<'_>,
) -> Result<()> {
    let root = own_folder(&rt, alloc)?;
    let mut world = Folders {
        place: Place { rt, alloc, root },
        devices: Vec::new(alloc),
    };
    run(alloc, first, playing, &mut world);
    fs::remove_dir_all(&rt, world.place.root.as_str())?;
    Ok(())
}

impl Place {
    /// The path of what the word names, which is none where the word is empty.
    fn path(&self, line: &Line, at: usize) -> Result<String> {
        match line.text_at(at) {
            Some("") => Ok(String::new(self.alloc)),
            Some(name) if name.contains("..") => bail!("a name stays within the case's folder"),
            Some(name) => Ok(format!(in self.alloc; "{}/{name}", self.root.as_str())?),
            None => bail!("a name is missing"),
        }
    }

    /// How many names there are in the folder.
    fn names(&self, line: &Line) -> Result<String> {
        let mut count = 0u64;
        for entry in fs::read_dir(&self.rt, self.path(line, 1)?.as_str())? {
            let _ = entry?;
            count = count.saturating_add(1);
        }
        shown(self.alloc, &count)
    }

    /// Makes and removes folders and files.
    fn change(&self, line: &Line) -> Result<String> {
        let path = self.path(line, 1)?;
        match line.call() {
            "folder" => fs::create_dir(&self.rt, path.as_str())?,
            "file" => fs::write(&self.rt, path.as_str(), "left")?,
            "remove_folder" => fs::remove_dir(&self.rt, path.as_str())?,
            "remove_all" => fs::remove_dir_all(&self.rt, path.as_str())?,
            _ => return unknown(line),
        }
        nothing(self.alloc)
    }
}

impl Folders {
    /// Opens so many lanes in the folders, in place of the devices that there were, and replies how many devices there are.
    fn open_lanes(&mut self, line: &Line) -> Result<String> {
        let alloc = self.place.alloc;
        let mut paths = Vec::new(alloc);
        for at in 2..line.words.len() {
            paths.push(self.place.path(line, at)?)?;
        }
        let mut folders = Vec::new(alloc);
        for path in &paths {
            folders.push(path.as_str())?;
        }
        if folders.is_empty() || folders.len() > 64 {
            bail!("there are 1 to 64 folders");
        }
        match open_lanes(self.place.rt, folders.as_slice(), small(line, 1)?) {
            Ok(devices) => {
                self.devices = devices;
                shown(alloc, &self.devices.len())
            }
            Err(why) => fault(alloc, &why),
        }
    }

    /// Opens one more device in the folder.
    fn open(&mut self, line: &Line) -> Result<String> {
        let folder = self.place.path(line, 1)?;
        match FileDevice::open(self.place.rt, folder.as_str(), small(line, 2)?) {
            Ok(device) => {
                self.devices.push(device)?;
                nothing(self.place.alloc)
            }
            Err(why) => fault(self.place.alloc, &why),
        }
    }
}

impl World for Folders {
    /// A call of the device whose number the line's thread is, if it has one.
    fn call(&mut self, line: &Line) -> Result<String> {
        let thread = str::from_utf8(line.thread()).unwrap_or("");
        if thread.is_empty() {
            return match line.call() {
                "open_lanes" => self.open_lanes(line),
                "open" => self.open(line),
                "names" => self.place.names(line),
                _ => self.place.change(line),
            };
        }
        let Ok(number) = thread.parse::<u64>() else {
            bail!("a call of a device begins with its number and a colon");
        };
        let Some(device) = self.devices.get_mut(number as usize) else {
            bail!("there is no such device");
        };
        match line.call() {
            "last_failure" => match device.last_failure() {
                None => text(self.place.alloc, "none"),
                Some(why) => fault(self.place.alloc, &why),
            },
            _ => call(self.place.alloc, device, line),
        }
    }
}
