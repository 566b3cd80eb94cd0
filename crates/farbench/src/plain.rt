//! The plain run of one file, which bench/fartable.sh times beside the program.

use anyhow::{Result, bail};
use std::alloc::Global;
use std::io;
use std::io::{BufReader, BufWriter};

/// Runs the file on standard input with so many buckets and objects of at most 4,096 bytes, as `fartable` would.
pub fn run<R: Input + Print + Alloc<A = Global>>(rt: &R, buckets: u32) -> Result<()> {
    if buckets == 0 || buckets > 65_536 {
        bail!("1 to 65,536 buckets");
    }
    let mut file = BufReader::new(rt.alloc(), rt.reader())?;
    let mut out = BufWriter::new(rt.alloc(), io::writer(rt))?;
    plain_run::run_file(rt.alloc(), buckets, 4_096, &mut file, &mut out)?;
    Ok(())
}
