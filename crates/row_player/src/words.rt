//! Cases of words: of a row of words, whose contents nobody vouches for, or of one where calls owe what they say of them.
ghost use Rattle.std.specs.Prelude.{◌≡◌, false};
ghost use Rattle.version_words.specs.Rows.{limits_of};

mod all_passes;
mod calls;
mod holdings;
mod installs;
mod threads;
mod user;
mod vouched_row;

use crate::replies::tell_opened;
use crate::rows::{Unvouched, opened};
use case_files::{Line, Playing};
use far_object::Text;
use std::alloc::Global;
use std::marker::Brand;
use std::thread::Threads;
use user::User;
use version_words::{Naming, Opened};
pub use vouched_row::play_vouched;

/// Plays the case of an opening `row`.
pub fn play<R: Threads + Sync>(rt: &R, alloc: Global, opening: &Line, playing: &mut Playing<'_>) {
    for _ in 0..2 {
        let is_again = match opened(alloc, opening) {
            Err(mistake) => playing.tell(opening, Err(mistake)),
            Ok(None) => tell_opened(alloc, opening, playing, false),
            Ok(Some(row)) => {
                play_in::<Brand, R>(rt, alloc, row, opening, playing);
                false
            }
        };
        if !is_again {
            return;
        }
    }
}

fn play_in<J: Naming + Send + Sync, R: Threads + Sync>(
    rt: &R,
    alloc: Global,
    opened: Opened<Text, Text, Unvouched>,
    opening: &Line,
    playing: &mut Playing<'_>,
)
    requires book { opened.book ≡ J.book }
    requires boards { opened.names ≡ J.names }
    requires limits { limits_of opened.sizes false ≡ J.limits }
{
    let words = opened.named::<J>();
    tell_opened(alloc, opening, playing, true);
    let mut user = User::new(alloc, words);
    user.play(rt, playing);
}
