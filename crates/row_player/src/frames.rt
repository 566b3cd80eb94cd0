//! Cases of frames: of one row of frames, and a row of words that names their versions.
ghost use Rattle.std.specs.Prelude.{◌≡◌, false};
ghost use Rattle.version_words.specs.Rows.{limits_of};

mod calls;
mod holdings;
mod other_reader;
mod readers;
mod threads;
mod user;
mod versions;

use crate::replies::{named, no_pass, tell_opened};
use crate::rows::{Unvouched, entered, opened};
use case_files::{Line, Playing};
use far_object::Text;
use frame_cache::{Frames, MOST_FRAMES};
use std::alloc::Global;
use std::marker::Brand;
use std::thread::Threads;
use user::User;
use version_words::{Naming, Opened};

/// Plays the case of an opening `frames`.
pub fn play<R: Threads + Sync>(rt: &R, alloc: Global, opening: &Line, playing: &mut Playing<'_>) {
    for _ in 0..2 {
        match opened(alloc, opening) {
            Err(mistake) => {
                playing.tell(opening, Err(mistake));
                return;
            }
            Ok(Some(row)) => {
                if !play_in::<Brand, R>(rt, alloc, row, opening, playing) {
                    return;
                }
            }
            Ok(None) => {
                if !tell_opened(alloc, opening, playing, false) {
                    return;
                }
            }
        }
    }
}

/// The same on the row that was opened. Answers whether the opening has to be made once more.
fn play_in<J: Naming + Send + Sync, R: Threads + Sync>(
    rt: &R,
    alloc: Global,
    opened: Opened<Text, Text, Unvouched>,
    opening: &Line,
    playing: &mut Playing<'_>,
) -> bool
    requires book { opened.book ≡ J.book }
    requires boards { opened.names ≡ J.names }
    requires limits { limits_of opened.sizes false ≡ J.limits }
{
    let words = opened.named::<J>();
    let count = match named(opening, "count", u64::from(MOST_FRAMES), 4) {
        Ok(count) if count <= 4_194_304 => count as u32,
        Ok(_) => return false,
        Err(mistake) => return playing.tell(opening, Err(mistake)),
    };
    let Ok(frames) = Frames::open(alloc, count) else {
        return tell_opened(alloc, opening, playing, false);
    };
    let Some(pass) = entered(&words) else {
        return playing.tell(opening, no_pass());
    };
    tell_opened(alloc, opening, playing, true);
    let mut user = User::new(alloc, &words, &frames, pass);
    user.play(rt, playing);
    false
}
