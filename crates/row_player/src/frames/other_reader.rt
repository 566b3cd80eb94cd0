//! What a scope shows is the contents of its name, also to a pass that has seen nothing: its mark tells it.
ghost use Rattle.std.specs.Prelude.{◌≡◌, IfSome};
ghost use Rattle.table_core.specs.Logs.{contents};

use super::user::{User, value_of};
use crate::rows::entered;
use anyhow::{Result, bail};
use far_object::FarObject;
use frame_cache::{Frames, Missed, Scope};
use version_words::{Naming, Pass, Words, contents_stay};

/// A scope on the version of this name, which the pass then knows.
fn enter_known<'a, K: FarObject, V: FarObject, J: Naming>(
    words: &Words<K, V, J>,
    pass: &mut Pass<K, V, J>,
    frames: &'a Frames<K, V, J>,
    frame: u32,
    name: u64,
) -> Option<Scope<'a, K, V, J>>
    ensures contents { IfSome result (λ scope. contents pass.new.front name ≡ scope.object) }
{
    let scope = frames.enter(frame, name).ok()?;
    contents_stay::<K, V>();
    words.learn(pass, scope.mark());
    Some(scope)
}

/// Replies the bucket and the value that a pass is shown which has seen nothing before.
pub fn read_by_another<J: Naming>(
    user: &User<'_, J>,
    frame: u32,
    name: u64,
    out: &mut String,
) -> Result<()> {
    let Some(mut pass) = entered(user.words) else {
        bail!("no pass is left");
    };
    let Some(scope) = enter_known(user.words, &mut pass, user.frames, frame, name) else {
        write!(out, "{Missed}")?;
        return Ok(());
    };
    let (bucket, value) = (scope.bucket(), value_of(scope.object().as_bytes()));
    scope.close();
    match value {
        Some(value) => write!(out, "{bucket} {}", char::from(value))?,
        None => write!(out, "{bucket} other bytes")?,
    }
    Ok(())
}
