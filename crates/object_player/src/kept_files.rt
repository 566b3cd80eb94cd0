//! A device in scratch files that keep their bytes when their class has no object.

use crate::disks::Disks;
use crate::world::{World, nothing, number, run, shown, times};
use anyhow::Result;
use case_files::{Line, Playing};
use file_device::{FileDevice, FileDisk, ScratchFolder, ScratchSpace};
use std::alloc::Global;
use std::env;
use std::hash::RandomState;
use std::sync::Arc;

/// The lane of the device.
const LANE: u32 = 1;

/// The device, and the space of its files.
#[derive(Drop)]
struct KeptFiles {
    alloc: Global,
    disks: Disks<FileDisk<ScratchFolder<HostRuntime>>>,
    space: Arc<ScratchSpace>,
}

pub(crate) fn play(
    rt: HostRuntime,
    alloc: Global,
    first: &Line,
    playing: &mut Playing<'_>,
) -> Result<()> {
    let folder = env::temp_dir(&rt)?;
    let space = Arc::new(alloc, ScratchSpace::new(alloc, LANE + 1)?)?;
    let disk = FileDisk::open_in(rt, folder.as_str(), LANE, Arc::try_clone(&space)?)?;
    let device = FileDevice::new(alloc, disk, RandomState::new(&rt)?);
    let mut world = KeptFiles {
        alloc,
        disks: Disks { alloc, device },
        space,
    };
    run(alloc, first, playing, &mut world);
    Ok(())
}

impl World for KeptFiles {
    fn call(&mut self, line: &Line) -> Result<String> {
        match line.call() {
            "space_bytes" => shown(self.alloc, &self.space.bytes()),
            "lane_bytes" => shown(
                self.alloc,
                &self.space.bytes_of(number(line, 1)?.min(9) as u32),
            ),
            "age" => {
                for _ in 0..times(line, 1)? {
                    self.space.age();
                }
                nothing(self.alloc)
            }
            "cut" => shown(self.alloc, &self.space.cut()),
            "give_back" => {
                self.space.give_back(LANE, number(line, 1)?);
                nothing(self.alloc)
            }
            _ => self.disks.call(line),
        }
    }
}
