//! Devices over pipes to stores.

use resp_device::{Pipes, RespDevice, StoreOpenFault};
use std::fs::File;
use std::io::ErrorKind;

/// The greatest number of a lane.
const LAST: usize = 63;

/// A device for each pair of pipes, in their order, as the lanes from 0 on. A pipe is opened once its other end is. If a pair
/// can't be opened, Err has its number, from 1, and the system's reason. If memory is refused, Err has none.
pub fn open_stores(
    host: HostRuntime,
    replies: &[&str],
    requests: &[&str],
) -> Result<Vec<RespDevice<Pipes<File, File>>>, Option<(usize, ErrorKind)>> {
    let mut devices = Vec::new(host.alloc());
    for (lane, (input, output)) in replies.iter().zip(requests).enumerate() {
        match RespDevice::open(&host, *input, *output, lane.min(LAST) as u8) {
            Ok(device) => {
                if devices.push(device).is_err() {
                    return Err(None);
                }
            }
            Err(StoreOpenFault::Memory) => return Err(None),
            Err(StoreOpenFault::Io(kind)) => return Err(Some((lane.saturating_add(1), kind))),
        }
    }
    Ok(devices)
}
