//! The lines of pairs, made by several threads before they are written.
ghost use Rattle.std.specs.Prelude.{◌≡◌, ◌++◌, ◌∷◌, map, codes, IfOk, OnOk};
ghost use Rattle.std.specs.Io.KnownBytes.{Appends};
ghost use Rattle.far_pairs.specs.Bundles.{all_of};
ghost use Rattle.run_lines.specs.Output.{written, pair_line};

use crate::output::write_pairs;
use crate::pair::Pair;
use far_object::Memory;
use rayon::iter::{
    FromParallelIterator, IndexedParallelIterator, IntoParallelRefIterator, ParallelIterator,
};
use std::alloc::{AllocError, Global};
use std::io;
use std::io::Write;
use std::marker::Model;
use std::thread::Threads;

/// The lines of pairs, in their order. They lie in several texts, since each thread fills one of its own. Contracts see the
/// bytes of all.
#[derive(Drop)]
pub struct PairLines {
    earlier: Vec<Vec<u8>>,
    last: Vec<u8>,
}

impl Model for PairLines {
    ghost use Rattle.std.specs.Prelude.{ℕ, List, ◌++◌, map};
    ghost use Rattle.std.specs.List.{concat};

    ghost Value = { List ℕ };

    ghost view = { λ l. concat (map (λ t. t.items) l.earlier.items) ++ l.last.items };
}

impl<'a, P: Pair> FromParallelIterator<&'a Vec<P>> for PairLines {
    type Alloc = Global;

    ghost from_par_iter_gives = { λ xs lines. lines ≡ written (map (λ e. pair_line (P.texts_of e)) (all_of (map (λ x. x.now.items) xs))) };

    fn empty_in(alloc: &Global) -> Result<Self, AllocError> {
        Ok(PairLines {
            earlier: Vec::new(*alloc),
            last: Vec::new(*alloc),
        })
    }

    fn with_item(mut self, item: &'a Vec<P>) -> Result<Self, AllocError> {
        match write_pairs(&mut self.last, item.as_slice()) {
            Ok(()) => Ok(self),
            Err(_) => Err(AllocError),
        }
    }

    fn joined_with(self, other: Self) -> Result<Self, AllocError> {
        let PairLines {
            mut earlier,
            last: text,
        } = self;
        let PairLines {
            earlier: mut more,
            last,
        } = other;
        earlier.push(text)?;
        earlier.append(&mut more)?;
        Ok(PairLines { earlier, last })
    }
}

impl PairLines {
    /// The lines of the pairs of these lists, in their order. Each list is handed out to a thread, as far as these can be
    /// started. `Memory` comes where a growth is refused.
    pub fn of<P: Pair + Send + Sync, R: Threads + Sync>(
        rt: &R,
        alloc: Global,
        lists: &[Vec<P>],
    ) -> Result<PairLines, Memory>
        ensures { IfOk result (λ lines. lines ≡ written (map (λ e. pair_line (P.texts_of e)) (all_of (map (λ l. l.items) lists.now)))) }
    {
        match lists.par_iter().with_min_len(1).collect(rt, alloc) {
            Ok(lines) => Ok(lines),
            Err(AllocError) => Err(Memory),
        }
    }

    /// Writes the contents behind the lines of the files: the line `contents`, and the lines of the pairs. Then it flushes.
    pub fn write_contents<W: Write>(&self, out: &mut W) -> io::Result<()>
        ensures { OnOk result (Appends (W.contents out.old) (W.contents out.new) (codes "contents" ++ 10 ∷ self.now)) }
    {
        out.write_all(b"contents\n")?;
        for text in &self.earlier {
            out.write_all(text)?;
        }
        out.write_all(&self.last)?;
        out.flush()
    }
}
