//! What an operation makes of the object under a word that was seen. The object is read in its frame or from
//! the device.
ghost use Rattle.std.specs.Prelude.{◌≡◌, IsTrue, IfOk, IfErr};
ghost use Rattle.table_core.specs.BucketWords.{name_of};
ghost use Rattle.table_core.specs.Maps.{reply};
ghost use Rattle.table_core.specs.Lent.{lent};
ghost use Rattle.table_core.specs.Logs.{contents};
ghost use Rattle.table_core.specs.Lawful.{IsLawful};
ghost use Rattle.version_words.specs.Views.{WasSeen};
ghost use Rattle.hash_table.specs.Changes.{MayMake, Leaves, Fits};
ghost use Rattle.hash_table.specs.Stages.{IsUnbuilt, IsUnbuiltFar};

use crate::refusal::Refusal;
use crate::stages::build::{Built, build, build_first};
use crate::stages::seen::{Place, split};
use crate::table::FarTable;
use far_device::Device;
use far_object::{Buffers, FarObject};
use std::alloc::Global;
use std::sync::Wait;
use table_core::Operation;
use version_words::{Naming, Pass, empty_holds};

impl<K: FarObject, V: FarObject, J: Naming, D: Device> FarTable<K, V, J, D> {
    /// What the operation makes of the object under this word, if that is in a frame or there is none.
    pub(crate) fn build_local<'a>(
        &self,
        alloc: Global,
        buffers: &mut Buffers,
        pass: &Pass<K, V, J>,
        b: u32,
        old: u64,
        operation: &Operation<&'a K, &'a V>,
    ) -> Result<Built<K, V>, Refusal>
        requires lawful { IsLawful K.enc V.enc J.limits pass.now.front }
        requires seen { WasSeen K.enc J.limits.buckets pass.now.front b old }
        ensures answer { IfOk result (λ t. IsTrue J.limits.honest → t.answer ≡ reply K.enc (contents pass.now.front (name_of old)) (lent operation.now)) }
        ensures object { IfOk result (λ t. IsTrue J.limits.honest → Leaves K.enc V.enc (contents pass.now.front (name_of old)) (lent operation.now) t.object) }
        ensures fits { IfOk result (λ t. Fits K.enc V.enc self.now.limit (lent operation.now) t.object) }
        ensures may { IfOk result (λ t. MayMake (lent operation.now) t.object) }
        ensures why { IfErr result (λ e. IsUnbuilt K.enc V.enc J.limits.honest self.now.limit old (contents pass.now.front (name_of old)) (lent operation.now) e) }
    {
        match split(old) {
            Place::Device => Err(Refusal::Far),
            Place::Nothing => {
                empty_holds::<K, V>();
                match build_first(alloc, buffers, operation, self.limit) {
                    Ok(built) => Ok(built),
                    Err(refusal) => Err(refusal),
                }
            }
            Place::Frame(frame) => {
                let Ok(scope) = self.enter_frame(pass, b, old, frame) else {
                    return Err(Refusal::Missed);
                };
                let replaced = scope.object().as_bytes().len();
                let built = build(alloc, buffers, scope.object(), operation, self.limit);
                scope.close();
                match built {
                    Ok(built) => Ok(Built { replaced, ..built }),
                    Err(refusal) => Err(refusal),
                }
            }
        }
    }

    /// The same, wherever the object is.
    pub(crate) fn build_anywhere<'a, R: Wait>(
        &self,
        rt: &R,
        alloc: Global,
        buffers: &mut Buffers,
        pass: &Pass<K, V, J>,
        b: u32,
        old: u64,
        operation: &Operation<&'a K, &'a V>,
    ) -> Result<Built<K, V>, Refusal>
        requires lawful { IsLawful K.enc V.enc J.limits pass.now.front }
        requires seen { WasSeen K.enc J.limits.buckets pass.now.front b old }
        ensures answer { IfOk result (λ t. IsTrue J.limits.honest → t.answer ≡ reply K.enc (contents pass.now.front (name_of old)) (lent operation.now)) }
        ensures object { IfOk result (λ t. IsTrue J.limits.honest → Leaves K.enc V.enc (contents pass.now.front (name_of old)) (lent operation.now) t.object) }
        ensures fits { IfOk result (λ t. Fits K.enc V.enc self.now.limit (lent operation.now) t.object) }
        ensures may { IfOk result (λ t. MayMake (lent operation.now) t.object) }
        ensures why { IfErr result (λ e. IsUnbuiltFar K.enc V.enc J.limits.honest self.now.limit (contents pass.now.front (name_of old)) (lent operation.now) e) }
    {
        match split(old) {
            Place::Device => {}
            Place::Nothing => {
                return match self.build_local(alloc, buffers, pass, b, old, operation) {
                    Ok(built) => Ok(built),
                    Err(refusal) => Err(refusal),
                };
            }
            Place::Frame(_) => {
                return match self.build_local(alloc, buffers, pass, b, old, operation) {
                    Ok(built) => Ok(built),
                    Err(refusal) => Err(refusal),
                };
            }
        }
        let object = match self.read_device(rt, alloc, pass, b, old) {
            Ok(object) => object,
            Err(refusal) => return Err(refusal),
        };
        match build(alloc, buffers, &object, operation, self.limit) {
            Ok(built) => Ok(built),
            Err(refusal) => Err(refusal),
        }
    }
}
