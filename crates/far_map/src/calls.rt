//! What a worker can ask of a session: the trait `Calls`. It hides the names in types that a session's map
//! has.
ghost use Rattle.std.specs.Prelude.{◌≡◌, ◌<◌, [], true, false, Some, IfOk, IfErr, IfSome};
ghost use Rattle.std.specs.Fn.{FnOnceReturnsAt};
ghost use Rattle.std.specs.List.{FoldsTo};
ghost use Rattle.table_core.specs.declared.operation.Operation.TheVariants as op;
ghost use Rattle.table_core.specs.Lent.{lent_value};
ghost use Rattle.far_object.specs.Encodings.{enc_text};
ghost use Rattle.far_object.specs.Buckets.{bucket};
ghost use Rattle.table_core.specs.Logs.{word};
ghost use Rattle.version_words.specs.Views.{Goes, has_object};
ghost use Rattle.hash_table.specs.States.{IsState};
ghost use Rattle.far_map.specs.Answers.{Answers, IsRead, IsFound, held_in};
ghost use Rattle.far_map.specs.Counts.{Counts};
ghost use Rattle.far_map.specs.Many.{IsGotEach};
ghost use Rattle.far_map.specs.Refusals.{IsUnread};
ghost use Rattle.far_map.specs.Removals.{call_of, found_in, IsMet};
ghost use Rattle.far_map.specs.Updates.{IsUpdated};
ghost use Rattle.far_map.specs.Visits.{AreOfBucket, IsBucketVisit, IsVisit};

use crate::change_request::ChangeRequest;
use crate::refusal::MapRefusal;
use crate::session::Session;
use crate::stats::Stats;
use crate::update::Updated;
use crate::values::Value;
use far_device::Device;
use far_object::Text;
use hash_table::{BucketState, Removal, TableScope, Traffic};
use std::sync::Wait;
use swapper::QueueNaming;
use version_words::Naming;

/// The calls of a session on its map. A worker makes them through the session that it is handed.
///
/// Each call tries again by itself if another thread was faster, and makes room if it lacks room. So an error
/// is final: the call was not made, and no pair of the map has changed.
///
/// The calls of the history are `get`, `with`, `hold`, `contains`, `put`, `remove`, `remove_if` and `put_if`.
/// A `get_many` or an `update` makes several of them. Each call of the history ends by handling the old
/// versions that the session has left, as `settle` does. All other calls only look at the map or move
/// objects, and are not counted.
///
/// # Errors
///
/// | Error | Returned by | When |
/// |---|---|---|
/// | `TooLong` | `put`, `put_if`, `update` | the bucket's pairs would be longer than `Settings::limit` |
/// | `Full` | changes, `hold`, `evict` | 1,000 further tries found no room; `Lack` states which kind |
/// | `NamesSpent` | changes, `hold`, `evict` | the last version number was drawn, and the call needs one |
/// | `Device` | each that returns a `MapRefusal` | a device failed in this call |
/// | `Damaged` | the same except `evict` | bytes from a device are no object of this bucket and version |
/// | `Memory` | each that returns a `MapRefusal` | an allocation failed |
///
/// Changes are `put`, `remove`, `remove_if`, `put_if` and `update`. Each needs room for one more old version.
/// One that changes its bucket also draws a version number, and needs a free frame if pairs are left there.
/// Gets and visits need none of these, so they return only `Device`, `Damaged` and `Memory`.
///
/// `Memory` is also returned by a change that would add a pair to a bucket of 1,048,576 pairs, if
/// `Settings::limit` is above 1,048,576.
///
/// # What is proved
///
/// Over an honest device, each finished call of the history is answered as a map of one thread answers it, at
/// one point of one growing history. That history begins with all that the session had seen. A call that
/// returns an error adds nothing to it.
///
/// It is proved which errors gets and visits can return, over any device. Over an honest device, a call of
/// the history returns `TooLong` and `NamesSpent` only if they were true at some moment of it, and never
/// returns `Damaged`. When `Full`, `Device` and `Memory` are returned is tested only. That a call returns is
/// not proved.
///
/// # Cost
///
/// A change copies the pairs of its bucket into a new object, so its cost grows with the bytes of the bucket.
/// It also allocates the value that it returns. If the bucket's object is on a device, each call that needs
/// its pairs reads it from there, under the lock of that device.
pub trait Calls<V: Value> {
    ghost use Rattle.table_core.specs.declared.limits.Limits.{Limits};
    ghost use Rattle.far_map.specs.Views.{SessionView};
    ghost use Rattle.std.specs.Prelude.{Option};

    // The limits of its map.
    ghost limits: { Limits };

    // Its pass, the most bytes of an object of its map, and what it has counted.
    ghost shown: { Self → SessionView V };

    /// A value that is held in its frame, from `hold` to `let_go`. It has to be let go in its own thread. The
    /// compiler refuses a program that loses it otherwise.
    type Held;

    // The value.
    ghost held: { Self.Held → Option V };

    /// Returns a copy of the key's value, or `None` if the key has none.
    ///
    /// Errors: `Memory`, `Device` and `Damaged`. A get needs no room and no version number.
    ///
    /// If the object is in a frame, a get makes two compare-and-swaps and one fetch-and-subtract if nobody
    /// interferes, and allocates only the copy. If the object is on a device, a get reads it from there. It
    /// also brings it into a frame if there is room for it.
    fn get<R: Wait>(&mut self, rt: &R, key: &Text) -> Result<Option<V>, MapRefusal>
        ensures answers { Answers V.enc limits (shown self.old) (shown self.new) (op.Get key.now) result }
        ensures unread { IfErr result (IsUnread limits.honest) }
        ensures counts { Counts (shown self.old) (shown self.new) (op.Get key.now) result };

    /// Returns copies of the values of these keys, in the order of the keys. Each is read by a get of its
    /// own, so the result need not be one moment of the map.
    ///
    /// The gets' waits for memory overlap, as after `prefetch`. On a map that is larger than the processor's
    /// caches this takes less time than calling `get` for each key. On a small map it gains nothing.
    ///
    /// Errors: those of `get`. The first get that fails ends the call, and no value is returned. The gets
    /// before it were made and are counted. If there is no memory for the list of results, `Memory` is
    /// returned before the first get.
    fn get_many<R: Wait>(&mut self, rt: &R, keys: &[Text]) -> Result<Vec<Option<V>>, MapRefusal>
        ensures got { IsGotEach V.enc limits keys.now (shown self.old) (shown self.new) result }
        ensures unread { IfErr result (IsUnread limits.honest) };

    /// Calls `read` with the bytes of the key's value, and returns what it returned; `None` if the key has no
    /// value.
    ///
    /// The bytes are lent from the frame, which is not emptied while `read` runs. If the object is on a
    /// device and can't be brought into a frame, for example because none is free, `read` gets the bytes of a
    /// copy.
    ///
    /// Errors: those of `get`. `read` was not called then.
    ///
    /// If the object is in a frame, nothing is copied or allocated.
    fn with<T, F: FnOnce(&[u8]) -> T + Drop, R: Wait>(
        &mut self,
        rt: &R,
        key: &Text,
        read: F,
    ) -> Result<Option<T>, MapRefusal>
        requires { F.IsAlwaysCallable read }
        ensures read { IsRead V.enc limits (shown self.old) (shown self.new) key.now (λ v. FnOnceReturnsAt F.FnOnce read (V.shows v)) result }
        ensures unread { IfErr result (IsUnread limits.honest) }
        ensures counts { Counts (shown self.old) (shown self.new) (op.Get key.now) result };

    /// Returns the key's value, held in its frame, or `None` if the key has no value. It is a get, and is
    /// counted as one.
    ///
    /// `bytes_of` lends the bytes, across other calls of the session. The frame is not emptied until `let_go`
    /// is called, also if the key is changed meanwhile: the held value stays as it is. So hold few values. If
    /// all frames are held, each call that needs a frame is refused with `Full`.
    ///
    /// Errors: all of `MapRefusal` except `TooLong`. Only an object on a device has to be brought into a frame,
    /// so only then can there be no room and no version number.
    ///
    /// If the object is in a frame, nothing is copied or allocated.
    fn hold<R: Wait>(&mut self, rt: &R, key: &Text) -> Result<Option<Self::Held>, MapRefusal>
        ensures answers { Answers V.enc limits (shown self.old) (shown self.new) (op.Get key.now) (held_in held result) }
        ensures counts { Counts (shown self.old) (shown self.new) (op.Get key.now) result };

    /// Lends the bytes of a value that is held.
    fn bytes_of<'a>(&self, value: &'a Self::Held) -> &'a [u8]
        ensures { (v : V) × (held value.now ≡ Some v) × (result.now ≡ V.shows v) };

    /// Ends the holding of a value. If its version was replaced meanwhile, the frame becomes free once the
    /// retired word is reclaimed, for example by `settle` or by the evictor.
    fn let_go(&self, value: Self::Held);

    /// Returns whether the key has a value. It is a get, and is counted as one.
    ///
    /// Errors and cost are those of `with`.
    fn contains<R: Wait>(&mut self, rt: &R, key: &Text) -> Result<bool, MapRefusal>
        ensures found { IsFound V.enc limits (shown self.old) (shown self.new) key.now result }
        ensures unread { IfErr result (IsUnread limits.honest) }
        ensures counts { Counts (shown self.old) (shown self.new) (op.Get key.now) result };

    /// Sets the key to the value, and returns the value before, or `None` if there was none.
    ///
    /// Errors: all of `MapRefusal`.
    ///
    /// It copies the pairs of the bucket into a new object, and draws a version number.
    fn put<R: Wait>(&mut self, rt: &R, key: &Text, value: &V) -> Result<Option<V>, MapRefusal>
        ensures answers { Answers V.enc limits (shown self.old) (shown self.new) (op.Put key.now value.now) result }
        ensures counts { Counts (shown self.old) (shown self.new) (op.Put key.now value.now) result };

    /// Removes the key, and returns the value that it had, or `None` if it had none.
    ///
    /// Errors: all of `MapRefusal` except `TooLong`.
    ///
    /// It costs as much as a put. If the key has no value, no object is made and no version number is drawn.
    fn remove<R: Wait>(&mut self, rt: &R, key: &Text) -> Result<Option<V>, MapRefusal>
        ensures answers { Answers V.enc limits (shown self.old) (shown self.new) (op.Remove key.now) result }
        ensures counts { Counts (shown self.old) (shown self.new) (op.Remove key.now) result };

    /// Removes the key if its value is the expected one. `Removal` states whether it was removed, and which
    /// value it had.
    ///
    /// If it was removed, the call is a remove in the history and in `Stats`. Otherwise it is a get.
    ///
    /// Errors and cost are those of `remove`, also if another value is found.
    fn remove_if<R: Wait>(
        &mut self,
        rt: &R,
        key: &Text,
        expected: &V,
    ) -> Result<Removal<V>, MapRefusal>
        ensures answers { Answers V.enc limits (shown self.old) (shown self.new) (call_of key.now result) (found_in result) }
        ensures met { IfOk result (IsMet expected.now) }
        ensures counts { Counts (shown self.old) (shown self.new) (call_of key.now result) result };

    /// Sets the key to the value if its current value is the expected one. `expected` is `None` if the key
    /// must have no value.
    ///
    /// It returns the value before, whether or not it set the key. So the caller compares it with the
    /// expected one.
    ///
    /// Errors: all of `MapRefusal`. If another value is found, no object is made. So `TooLong`, `NamesSpent` and
    /// `Full` with `Lack::Frame` are not returned then.
    ///
    /// It costs as much as a put if it sets the key, and otherwise as much as a get.
    fn put_if<R: Wait>(
        &mut self,
        rt: &R,
        key: &Text,
        expected: Option<&V>,
        value: &V,
    ) -> Result<Option<V>, MapRefusal>
        ensures answers { Answers V.enc limits (shown self.old) (shown self.new) (op.PutIf key.now (lent_value expected.entry) value.now) result }
        ensures counts { Counts (shown self.old) (shown self.new) (op.PutIf key.now (lent_value expected.entry) value.now) result };

    /// Sets the key to what `make` returns for its current value. If another session changed the value
    /// meanwhile, it tries again, 1,000 times in all.
    ///
    /// `make` gets `None` if the key has no value, and returns `None` to leave the key as it is. It is called
    /// once in each try. For example, `make` reads a counter and adds one: then no increment of another
    /// session is lost.
    ///
    /// It returns `Updated::Set` or `Updated::Left` with the value that `make` got last. `Updated::Overtaken`
    /// means that each try was too late.
    ///
    /// Each try is a get and, if `make` returned a value, a `put_if`. They are counted as such. Errors: those
    /// of `get` and `put_if`. The first ends the call.
    fn update<F: Fn(Option<&V>) -> Option<V> + Drop, R: Wait>(
        &mut self,
        rt: &R,
        key: &Text,
        make: F,
    ) -> Result<Updated<V>, MapRefusal>
        requires { F.IsAlwaysCallable make }
        ensures { IsUpdated V.enc limits key.now (λ found made. (lent : _) × (lent_value lent ≡ found) × F.post make lent made) (shown self.old) (shown self.new) result };

    /// Calls `visit` with a copy of each pair of the map, in the order of the buckets' numbers and in key
    /// order within a bucket.
    ///
    /// The pairs of one bucket are those of one moment. Other sessions may change the map between two
    /// buckets. It is no call of the history, and is not counted.
    ///
    /// Errors: `Memory`, `Device` and `Damaged`, for the first bucket that can't be read. `visit` has got the
    /// pairs of all buckets before it then.
    ///
    /// It copies the pairs of one bucket at a time. Objects on a device are read there, and not brought into
    /// frames.
    fn for_each<F: FnMut(Text, V), R: Wait>(
        &mut self,
        rt: &R,
        visit: &mut F,
    ) -> Result<(), MapRefusal>
        requires { F.IsAlwaysCallable visit.old }
        ensures visits { IsVisit V.enc limits (λ pairs. FoldsTo (λ f pair g. F.step f pair.0 pair.1 tt g) visit.old pairs visit.new) (shown self.old).pass (shown self.new).pass result }
        ensures goes { Goes (shown self.old).pass (shown self.new).pass }
        ensures same { ((shown self.new).limit ≡ (shown self.old).limit) × ((shown self.new).stats ≡ (shown self.old).stats) };

    /// Returns how many version numbers can still be drawn. It is a hint: nothing is proved of it. A worker
    /// of `run_renewed` should return from its term when few are left.
    fn names_left(&self) -> u64;

    /// Returns how many buckets the map has.
    fn buckets(&self) -> u32
        ensures { result ≡ limits.buckets };

    /// Returns the number of the key's bucket, for `for_each_in` and `is_empty_at`.
    fn bucket_of(&self, key: &Text) -> u32
        ensures is { result ≡ bucket enc_text limits.buckets key.now }
        ensures below { result < limits.buckets };

    /// Calls `visit` with a copy of each pair of one bucket, in key order, as they were at one moment of the
    /// call. Buckets are numbered from 0, and `bucket` has to be less than `buckets()`.
    ///
    /// It is no call of the history, and is not counted. Errors: `Memory`, `Device` and `Damaged`. `visit`
    /// was not called then.
    fn for_each_in<F: FnMut(Text, V), R: Wait>(
        &mut self,
        rt: &R,
        bucket: u32,
        visit: &mut F,
    ) -> Result<(), MapRefusal>
        requires bucket { bucket < limits.buckets }
        requires callable { F.IsAlwaysCallable visit.old }
        ensures visits { IsBucketVisit V.enc limits bucket (λ pairs. FoldsTo (λ f pair g. F.step f pair.0 pair.1 tt g) visit.old pairs visit.new) (shown self.new).pass result }
        ensures again { F.IsAlwaysCallable visit.new }
        ensures goes { Goes (shown self.old).pass (shown self.new).pass }
        ensures same { ((shown self.new).limit ≡ (shown self.old).limit) × ((shown self.new).stats ≡ (shown self.old).stats) };

    /// Returns whether this bucket has no pair. Buckets are numbered from 0, and `bucket` has to be less than
    /// `buckets()`.
    ///
    /// It loads only the bucket's word, and no object. It is no call of the history, and is not counted.
    fn is_empty_at(&mut self, bucket: u32) -> bool
        requires { bucket < limits.buckets }
        ensures empty { result ≡ true → AreOfBucket V.enc limits bucket (shown self.new).pass [] }
        ensures filled { result ≡ false → has_object (word enc_text limits.buckets (shown self.new).pass.front bucket) ≡ true }
        ensures goes { Goes (shown self.old).pass (shown self.new).pass }
        ensures same { ((shown self.new).limit ≡ (shown self.old).limit) × ((shown self.new).stats ≡ (shown self.old).stats) };

    /// Returns the number of the bucket whose object is in this frame, if the frame's mark of use is not set.
    /// Frames are numbered from 0. For a number that no frame has it returns `None`.
    ///
    /// It helps a program to find keys that are not in use. A get that reads in the frame sets its mark. This
    /// call clears it, and so does the map's own search for a frame to empty. That the bucket has such a
    /// number is proved, and when `None` is returned is not. It is no call of the history, and is not
    /// counted.
    fn unread_in(&self, frame: u32) -> Option<u32>
        ensures { IfSome result (λ bucket. bucket < limits.buckets) };

    /// Returns where the object of the key's bucket is: in a frame, on a device, or nowhere because the
    /// bucket has no pair. `BucketState` also has the version number of the bucket's word.
    ///
    /// It loads only the bucket's word. It is no call of the history, and is not counted.
    fn where_is(&mut self, key: &Text) -> BucketState
        ensures goes { Goes (shown self.old).pass (shown self.new).pass }
        ensures state { IsState (word enc_text limits.buckets (shown self.new).pass.front (bucket enc_text limits.buckets key.now)) result }
        ensures same { ((shown self.new).limit ≡ (shown self.old).limit) × ((shown self.new).stats ≡ (shown self.old).stats) };

    /// Moves the object of one frame to a device, by a turn of the evictor, and returns whether it did.
    /// `false` means that the turn found no object to move.
    ///
    /// The frame is free once nobody reads there. It is no call of the history, and is not counted.
    ///
    /// Errors: `Device` if the device failed, `Memory` if an allocation failed, and `NamesSpent` if no
    /// version number is left for the move. `Full` with `Lack::Spare` is returned if too many old versions
    /// still wait after 1,000 tries.
    ///
    /// It waits for the evictor's lock, and writes one object to its device.
    fn evict<R: Wait>(&mut self, rt: &R) -> Result<bool, MapRefusal>
        ensures goes { Goes (shown self.old).pass (shown self.new).pass }
        ensures same { ((shown self.new).limit ≡ (shown self.old).limit) × ((shown self.new).stats ≡ (shown self.old).stats) };

    /// Handles the old versions that the session's calls have left. It reclaims the oldest one if nobody
    /// reads it, and hands the others to the evictor. If too many bytes are in frames, it also moves objects
    /// to the devices.
    ///
    /// Each call of the history does this at its end. Call it after `let_go`, or before a while without
    /// calls. It is not counted, and returns no error: what can't be reclaimed yet waits.
    fn settle<R: Wait>(&mut self, rt: &R)
        ensures goes { Goes (shown self.old).pass (shown self.new).pass }
        ensures same { ((shown self.new).limit ≡ (shown self.old).limit) × ((shown self.new).stats ≡ (shown self.old).stats) };

    /// Begins to load what calls with the first 16 of these keys are going to read. It is a hint, which
    /// shortens the waits for memory of the next calls if the map is larger than the processor's caches.
    ///
    /// It loads the words of the buckets and of their frames, and reads no device. On a map of fewer than
    /// 16,384 buckets it does nothing. It is no call of the history, and is not counted.
    fn prefetch(&mut self, keys: &[Text])
        ensures goes { Goes (shown self.old).pass (shown self.new).pass }
        ensures same { ((shown self.new).limit ≡ (shown self.old).limit) × ((shown self.new).stats ≡ (shown self.old).stats) };

    /// Returns what this session's calls have read and moved, and how many bytes they have brought into
    /// frames. Nothing is proved of it.
    fn traffic(&self) -> Traffic;

    /// Returns how many bytes of objects are in the frames of the map. It is off by up to some kilobytes for
    /// each session. Nothing is proved of it.
    fn bytes_in_frames(&self) -> u64;

    /// Returns how many calls this session has finished, by kind, and how many were refused, by reason.
    fn stats(&self) -> Stats
        ensures { result ≡ (shown self.now).stats };
}

impl<'m, V: Value, J: Naming, B: QueueNaming, D: Device> Calls<V> for Session<'m, V, J, B, D> {
    ghost limits = { J.limits };

    ghost shown = { λ s. s };

    type Held = TableScope<'m, Text, V, J>;

    ghost held = { λ s. s.value };

    fn get<R: Wait>(&mut self, rt: &R, key: &Text) -> Result<Option<V>, MapRefusal> {
        self.copy(rt, key)
    }

    fn get_many<R: Wait>(&mut self, rt: &R, keys: &[Text]) -> Result<Vec<Option<V>>, MapRefusal> {
        self.copy_many(rt, keys)
    }

    fn with<T, F: FnOnce(&[u8]) -> T + Drop, R: Wait>(
        &mut self,
        rt: &R,
        key: &Text,
        read: F,
    ) -> Result<Option<T>, MapRefusal> {
        self.read(rt, key, read)
    }

    fn hold<R: Wait>(&mut self, rt: &R, key: &Text) -> Result<Option<Self::Held>, MapRefusal> {
        self.take_hold(rt, key)
    }

    fn bytes_of<'a>(&self, value: &'a Self::Held) -> &'a [u8] {
        V::part(value.bytes())
    }

    fn let_go(&self, value: Self::Held) {
        value.close();
    }

    fn contains<R: Wait>(&mut self, rt: &R, key: &Text) -> Result<bool, MapRefusal> {
        self.find(rt, key)
    }

    fn put<R: Wait>(&mut self, rt: &R, key: &Text, value: &V) -> Result<Option<V>, MapRefusal> {
        self.ask(rt, &ChangeRequest::Put(key, value))
    }

    fn remove<R: Wait>(&mut self, rt: &R, key: &Text) -> Result<Option<V>, MapRefusal> {
        self.ask(rt, &ChangeRequest::Remove(key))
    }

    fn remove_if<R: Wait>(
        &mut self,
        rt: &R,
        key: &Text,
        expected: &V,
    ) -> Result<Removal<V>, MapRefusal> {
        self.take_out(rt, key, expected)
    }

    fn put_if<R: Wait>(
        &mut self,
        rt: &R,
        key: &Text,
        expected: Option<&V>,
        value: &V,
    ) -> Result<Option<V>, MapRefusal> {
        self.ask(rt, &ChangeRequest::PutIf(key, expected, value))
    }

    fn update<F: Fn(Option<&V>) -> Option<V> + Drop, R: Wait>(
        &mut self,
        rt: &R,
        key: &Text,
        make: F,
    ) -> Result<Updated<V>, MapRefusal> {
        self.make_anew(rt, key, make)
    }

    fn for_each<F: FnMut(Text, V), R: Wait>(
        &mut self,
        rt: &R,
        visit: &mut F,
    ) -> Result<(), MapRefusal> {
        self.visit_all(rt, visit)
    }

    fn names_left(&self) -> u64 {
        self.map.table.names_left()
    }

    fn buckets(&self) -> u32 {
        self.map.buckets
    }

    fn bucket_of(&self, key: &Text) -> u32 {
        self.map.table.bucket(key)
    }

    fn for_each_in<F: FnMut(Text, V), R: Wait>(
        &mut self,
        rt: &R,
        bucket: u32,
        visit: &mut F,
    ) -> Result<(), MapRefusal> {
        self.visit_one(rt, bucket, visit)
    }

    fn is_empty_at(&mut self, bucket: u32) -> bool {
        self.has_no_pair(bucket)
    }

    fn unread_in(&self, frame: u32) -> Option<u32> {
        self.unread_bucket(frame)
    }

    fn where_is(&mut self, key: &Text) -> BucketState {
        self.place(key)
    }

    fn evict<R: Wait>(&mut self, rt: &R) -> Result<bool, MapRefusal> {
        self.empty_one(rt)
    }

    fn settle<R: Wait>(&mut self, rt: &R) {
        self.see_to_spares(rt);
    }

    fn prefetch(&mut self, keys: &[Text]) {
        self.bring_near(keys);
    }

    fn traffic(&self) -> Traffic {
        self.session_state.caller.traffic()
    }

    fn bytes_in_frames(&self) -> u64 {
        self.map.bytes.sum()
    }

    fn stats(&self) -> Stats {
        self.stats
    }
}
