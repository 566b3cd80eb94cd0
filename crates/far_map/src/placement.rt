//! Calls that look at a bucket's place, empty a frame, or handle old versions. They are no calls of the
//! history.
ghost use Rattle.std.specs.Prelude.{◌≡◌, ◌<◌, [], true, false, IfSome};
ghost use Rattle.far_object.specs.Encodings.{enc_text};
ghost use Rattle.far_object.specs.Buckets.{bucket};
ghost use Rattle.table_core.specs.Logs.{word};
ghost use Rattle.version_words.specs.Views.{Goes, has_object};
ghost use Rattle.hash_table.specs.States.{IsState};
ghost use Rattle.far_map.specs.Spares.{LosesNone};
ghost use Rattle.far_map.specs.Visits.{AreOfBucket};

use crate::map::FarMap;
use crate::refusal::{Lack, MapRefusal};
use crate::room::{MOST_TRIES, make_room};
use crate::session::Session;
use crate::upkeep::SessionState;
use crate::values::Value;
use far_device::Device;
use far_object::Text;
use hash_table::{BucketState, Caller, FarTable, Refusal as TableRefusal};
use std::sync::Wait;
use swapper::QueueNaming;
use table_core::contents_are_map;
use version_words::{Naming, empty_holds};

/// Makes a turn of the evictor, and returns whether it emptied a frame. If another thread was faster it is
/// made again.
#[tactic(auto, using(hash_table::proofs::Fronts::goes_trans))]
fn turn<V: Value, J: Naming, B: QueueNaming, D: Device, R: Wait>(
    rt: &R,
    map: &FarMap<V, J, B, D>,
    caller: &mut Caller<Text, V, J>,
) -> Result<bool, TableRefusal>
    ensures goes { Goes caller.old.pass caller.new.pass }
    ensures limbo { caller.new.limbo ≡ caller.old.limbo }
{
    for _ in rt.forever() {
        match map.turn(rt, caller) {
            Ok(emptied) => return Ok(emptied),
            Err(TableRefusal::Moved) => {}
            Err(TableRefusal::Missed) => {}
            Err(refusal) => return Err(refusal),
        }
    }
    unreachable!()
}

/// The same. If too many retired words wait, they are reclaimed first, 1,000 times at most.
fn give_up<V: Value, J: Naming, B: QueueNaming, D: Device, R: Wait>(
    rt: &R,
    map: &FarMap<V, J, B, D>,
    session_state: &mut SessionState<V, J, B>,
) -> Result<bool, MapRefusal>
    ensures goes { Goes session_state.old.caller.pass session_state.new.caller.pass }
    ensures none_lost { LosesNone session_state.old.caller.limbo session_state.old.seat session_state.new.caller.limbo session_state.new.seat }
{
    let mut tries = MOST_TRIES;
    for _ in 0..MOST_TRIES {
        match turn(rt, map, &mut session_state.caller) {
            Ok(emptied) => return Ok(emptied),
            Err(refusal) => match make_room(rt, map, session_state, refusal, &mut tries) {
                Ok(()) => {}
                Err(why) => return Err(why),
            },
        }
    }
    Err(MapRefusal::Full(Lack::Spare))
}

/// Whether the bucket's word names no object.
fn names_nothing<V: Value, J: Naming, D: Device>(
    table: &FarTable<Text, V, J, D>,
    caller: &mut Caller<Text, V, J>,
    bucket: u32,
) -> bool
    requires { bucket < J.limits.buckets }
    ensures empty { result ≡ true → AreOfBucket V.enc J.limits bucket caller.new.pass [] }
    ensures filled { result ≡ false → has_object (word enc_text J.limits.buckets caller.new.pass.front bucket) ≡ true }
    ensures goes { Goes caller.old.pass caller.new.pass }
{
    empty_holds::<Text, V>();
    contents_are_map::<Text, V>();
    match table.state_of(caller, bucket) {
        BucketState::Empty(_) => true,
        BucketState::Local(_) => false,
        BucketState::Far(_) => false,
    }
}

impl<'m, V: Value, J: Naming, B: QueueNaming, D: Device> Session<'m, V, J, B, D> {
    /// Whether the bucket has no pair.
    pub(crate) fn has_no_pair(&mut self, bucket: u32) -> bool
        requires { bucket < J.limits.buckets }
        ensures empty { result ≡ true → AreOfBucket V.enc J.limits bucket self.new.pass [] }
        ensures filled { result ≡ false → has_object (word enc_text J.limits.buckets self.new.pass.front bucket) ≡ true }
        ensures goes { Goes self.old.pass self.new.pass }
        ensures same { (self.new.limit ≡ self.old.limit) × (self.new.stats ≡ self.old.stats) }
    {
        names_nothing(&self.map.table, &mut self.session_state.caller, bucket)
    }

    /// The bucket of the frame's object, if the frame's mark of use is not set. The mark is cleared.
    pub(crate) fn unread_bucket(&self, frame: u32) -> Option<u32>
        ensures { IfSome result (λ bucket. bucket < J.limits.buckets) }
    {
        let table = &self.map.table;
        if table.touched(frame) {
            return None;
        }
        match table.frame_seen(frame) {
            Some((bucket, _)) => Some(bucket),
            None => None,
        }
    }

    /// Where the contents of the key's bucket are.
    pub(crate) fn place(&mut self, key: &Text) -> BucketState
        ensures goes { Goes self.old.pass self.new.pass }
        ensures state { IsState (word enc_text J.limits.buckets self.new.pass.front (bucket enc_text J.limits.buckets key.now)) result }
        ensures same { (self.new.limit ≡ self.old.limit) × (self.new.stats ≡ self.old.stats) }
    {
        let table = &self.map.table;
        let bucket = table.bucket(key);
        table.state_of(&mut self.session_state.caller, bucket)
    }

    /// Handles the retired words that its calls have left.
    pub(crate) fn see_to_spares<R: Wait>(&mut self, rt: &R)
        ensures goes { Goes self.old.pass self.new.pass }
        ensures same { (self.new.limit ≡ self.old.limit) × (self.new.stats ≡ self.old.stats) }
    {
        self.map.after_call(rt, &mut self.session_state);
    }

    /// Has the evictor empty a frame.
    pub(crate) fn empty_one<R: Wait>(&mut self, rt: &R) -> Result<bool, MapRefusal>
        ensures goes { Goes self.old.pass self.new.pass }
        ensures same { (self.new.limit ≡ self.old.limit) × (self.new.stats ≡ self.old.stats) }
    {
        give_up(rt, self.map, &mut self.session_state)
    }
}
