//! A device over a store.
ghost use Rattle.std.specs.Prelude.{◌≡◌, ◌+◌, ◌%◌, ◌^◌, true, false, IsOk, IfOk, OnOk, IsErr};
ghost use Rattle.std.specs.Bool.{OnTrue, OnFalse};
ghost use Rattle.std.specs.Option.{IfSome};
ghost use Rattle.std.specs.FinMap.{empty, get, len};
ghost use Rattle.digests.specs.Collisions.{nothing_collided};
ghost use Rattle.digests.specs.Digests.{GivesAlike};
ghost use Rattle.far_device.specs.Calls.{Constructs, Writes, Reads, Removes};
ghost use Rattle.resp_device.specs.Failures.{LivesOn};
ghost use Rattle.resp_device.specs.Objects.{AreSound};
ghost use Rattle.resp_device.specs.Wire.{IsStored, IsFetched, IsDeleted};

use crate::StoreFailure;
use crate::failures::Failures;
use crate::index::Index;
use crate::link::{Link, part};
use crate::object_record::{Kept, LONGEST};
use crate::requests::Requests;
use far_device::{Device, DeviceFault};
use std::alloc::{AllocError, Global};
use std::hash::RandomState;
use std::io::{Read, Write};

/// A device whose objects lie in a store that speaks the protocol of Redis. Of each object it keeps
/// length and digest.
///
/// The pipes are given as they are behind a login. No call has a time limit: who joins them to the
/// store closes them where a reply is late, and the call fails.
#[derive(Drop)]
pub struct RespDevice<P> {
    link: Link<P>,
    keys: RandomState,
    requests: Requests,
    index: Index,
    // What is written now, so that proofs can tell of it.
    scratch: Vec<u8>,
    failures: Failures,
    ghost sound: { AreSound keys index.objects.entries },
}

impl<P: Read + Write + Drop> RespDevice<P> {
    ghost use Rattle.resp_device.specs.Devices.{contents_in, state_in, pipes_in, is_live_in, last_in};

    /// An empty device over these pipes, as lane `lane`. Its keys in the store begin with the prefix, of
    /// 16 random bytes, and its digests are under these keys: who opens the device draws both, and
    /// nobody who can write to the store may know the keys.
    pub fn new(
        alloc: Global,
        pipes: P,
        prefix: [u8; 16],
        lane: u8,
        keys: RandomState,
    ) -> Result<Self, AllocError>
        ensures state { IfOk result (λ device.
            state_in device ≡ record { contents = empty; failures = 0 }) }
        ensures pipes { IfOk result (λ device.
            (pipes_in device ≡ pipes) × (is_live_in device ≡ true)) }
    {
        Ok(RespDevice {
            link: Link::new(alloc, pipes)?,
            keys,
            requests: Requests::new(alloc, u128::from_be_bytes(prefix), lane),
            index: Index::new(alloc),
            scratch: Vec::new(alloc),
            failures: Failures::new(),
        })
    }

    /// Why the last call that answered `Failed` did so, and none before there was one.
    pub fn last_failure(&self) -> Option<StoreFailure>
        ensures { result ≡ last_in self.now }
    {
        self.failures.last
    }

    /// Whether the pipes can be used. Where they can't, each write, and each call for an object that
    /// there is, is `Failed` until the device gets others.
    pub fn is_live(&self) -> bool
        ensures { result ≡ is_live_in self.now }
    {
        self.link.live
    }

    /// Takes these pipes, to the same store, in place of those that it had, which it gives back. All
    /// objects stay.
    pub fn reconnect(&mut self, pipes: P) -> P
        ensures same { state_in self.new ≡ state_in self.old }
        ensures pipes { (result ≡ pipes_in self.old) × (pipes_in self.new ≡ pipes) }
        ensures live { is_live_in self.new ≡ true }
    {
        self.link.replace(pipes)
    }

    /// The pipes, to look at.
    pub fn pipes(&self) -> &P
        ensures { result.now ≡ pipes_in self.now }
    {
        &self.link.pipes
    }

    /// How many objects it keeps.
    pub fn len(&self) -> usize
        ensures { result ≡ len (contents_in self.now) }
    {
        self.index.len()
    }
}

impl<P: Read + Write + Drop> Device for RespDevice<P> {
    ghost use Rattle.resp_device.specs.Devices.{contents_in, keys_in, state_in, pipes_in, is_live_in, last_in, key_in, prefix_in};

    ghost state = { λ device. state_in device };

    ghost HONEST = { nothing_collided };

    /// Never fails, and leaves the pipes alone: the next prefix is taken, and what lies under the old one
    /// stays in the store.
    fn construct(&mut self) -> Result<(), DeviceFault>
        ensures constructs { Constructs (state_in self.old) (state_in self.new) result }
        ensures ok { IsOk result }
        ensures prefix { prefix_in self.new ≡ (prefix_in self.old + 1) % 2 ^ 128 }
        ensures untouched { pipes_in self.new ≡ pipes_in self.old }
        ensures live { is_live_in self.new ≡ is_live_in self.old }
    {
        self.index.empty();
        self.requests.begin_anew();
        Ok(())
    }

    /// An object of more than 64 MiB is `Failed`. After a fault behind which a request was sent the
    /// device has the id no more.
    fn write(&mut self, id: u64, bytes: &[u8]) -> Result<(), DeviceFault>
        ensures writes { Writes (state_in self.old) (state_in self.new) id bytes.now result }
        // The request was sent whole, and its reply is all that came.
        ensures stored { OnOk result (IsStored P.contents P.remaining
            (pipes_in self.old) (pipes_in self.new) (key_in self.old id) bytes.now) }

        // Broken pipes are left alone.
        ensures broken { is_live_in self.old ≡ false → IsErr result
            × (pipes_in self.new ≡ pipes_in self.old) × (contents_in self.new ≡ contents_in self.old) }
        ensures lives_on { LivesOn result (last_in self.new)
            (is_live_in self.old) (is_live_in self.new) }
    {
        if bytes.len() > LONGEST {
            return Err(self.failures.add(StoreFailure::TooLong));
        }
        if !self.link.live {
            return Err(self.failures.add(StoreFailure::Broken));
        }
        self.scratch.clear();
        self.scratch.extend_from_slice(bytes)?;
        self.requests.set(id, bytes)?;
        self.link.make_ready(0)?;
        self.index.remove(id);
        if let Err(why) = self.link.store(&self.requests.request) {
            return Err(self.failures.add(why));
        }
        let kept = Kept::of(&self.scratch, &self.keys);
        match self.index.enter(id, kept) {
            Ok(()) => Ok(()),
            Err(AllocError) => Err(DeviceFault::Memory),
        }
    }

    /// Whatever the store does, the appended bytes have the length and the digest of what was written.
    /// So they are what was written, unless a digest collided.
    ///
    /// `Failed` if they have not, if the store has lost the object, or if the pipes fail. `Memory` if
    /// an allocation fails.
    fn read(&mut self, id: u64, out: &mut Vec<u8>) -> Result<bool, DeviceFault>
        ensures reads { Reads nothing_collided (state_in self.old) (state_in self.new)
            id out.old.items out.new.items result }
        ensures alike { IfOk result (λ there. OnTrue there (IfSome (get (contents_in self.old) id)
            (λ bytes. GivesAlike (keys_in self.old) bytes out.old.items out.new.items))) }
        ensures fetched { IfOk result (λ there. OnTrue there (IsFetched P.contents P.remaining
            (pipes_in self.old) (pipes_in self.new) (key_in self.old id) out.old.items out.new.items)) }
        ensures unasked { IfOk result (λ there. OnFalse there
            (pipes_in self.new ≡ pipes_in self.old)) }
        ensures asked { IfOk result (λ there. OnTrue there (is_live_in self.old ≡ true)) }
        ensures broken { is_live_in self.old ≡ false → pipes_in self.new ≡ pipes_in self.old }
        ensures lives_on { LivesOn result (last_in self.new)
            (is_live_in self.old) (is_live_in self.new) }
    {
        let Some(kept) = self.index.kept(id) else {
            return Ok(false);
        };
        self.requests.get(id)?;
        self.link.make_ready(kept.len)?;
        let span = match self.link.fetch(&self.requests.request, kept.len) {
            Ok(span) => span,
            Err(why) => return Err(self.failures.add(why)),
        };
        let bytes = part(&self.link.room, span);
        if !kept.fits(&self.keys, bytes) {
            return Err(self.failures.add(StoreFailure::Damaged));
        }
        out.extend_from_slice(bytes)?;
        Ok(true)
    }

    /// After a fault the device has what it had, so that the store is asked again.
    fn remove(&mut self, id: u64) -> Result<bool, DeviceFault>
        ensures removes { Removes (state_in self.old) (state_in self.new) id result }
        ensures deleted { IfOk result (λ there. OnTrue there (IsDeleted P.contents P.remaining
            (pipes_in self.old) (pipes_in self.new) (key_in self.old id))) }
        ensures unasked { IfOk result (λ there. OnFalse there
            (pipes_in self.new ≡ pipes_in self.old)) }
        ensures asked { IfOk result (λ there. OnTrue there (is_live_in self.old ≡ true)) }
        ensures broken { is_live_in self.old ≡ false → pipes_in self.new ≡ pipes_in self.old }
        ensures lives_on { LivesOn result (last_in self.new)
            (is_live_in self.old) (is_live_in self.new) }
    {
        if !self.index.has(id) {
            return Ok(false);
        }
        self.requests.delete(id)?;
        self.link.make_ready(0)?;
        if let Err(why) = self.link.count(&self.requests.request) {
            return Err(self.failures.add(why));
        }
        self.index.remove(id);
        Ok(true)
    }

    fn failures(&self) -> u64 {
        self.failures.count
    }
}
