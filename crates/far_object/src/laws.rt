//! What follows from the laws that each encoding keeps.
//!
//! These functions do nothing: the contract of each is a theorem about every type that implements
//! `FarObject`.
ghost use Rattle.far_object.specs.Laws.{
  ReadsWhatBegins,
  BeginNoOther,
  AreDistinct,
  MapsAreDistinct,
  SpellingsAreDistinct,
  IsMisplacedElsewhere,
  AreLong,
  GrowTooLong,
};

use crate::traits::FarObject;

/// Bytes are read as a value exactly where they begin with its encoding, and the value is one that
/// the type admits. So `decode` and `skip` find a value in just these places.
pub fn values_are_where_encodings_begin<T: FarObject>()
    ensures { ReadsWhatBegins T.enc T.dec T.admits }
{}

/// No encoding is a proper prefix of another, so values can be written one after another with
/// nothing between them.
pub fn encodings_begin_no_other<T: FarObject>()
    ensures { BeginNoOther T.enc T.admits }
{}

/// Equal encodings are equal values.
pub fn equal_encodings_are_equal_values<T: FarObject>()
    ensures { AreDistinct T.enc T.admits }
{}

/// Two different maps have different objects.
pub fn equal_objects_are_equal_maps<K: FarObject, V: FarObject>()
    ensures { MapsAreDistinct K.enc V.enc K.admits V.admits }
{}

/// Equal spellings are of one format and of one map, whatever their buckets and names.
pub fn equal_spellings_are_equal_maps<K: FarObject, V: FarObject>()
    ensures { SpellingsAreDistinct K.enc V.enc K.admits V.admits }
{}

/// What is written in the second format for one bucket and name is `Misplaced` where it is read for
/// another.
pub fn spellings_are_misplaced_elsewhere<K: FarObject, V: FarObject>()
    ensures { IsMisplacedElsewhere K.enc V.enc K.dec V.dec }
{}

/// An object has at least three bytes more than pairs: its count takes four, and at most one key of
/// a map is written as no byte. So a limit on an object's bytes limits its pairs.
pub fn objects_are_longer_than_their_counts<K: FarObject, V: FarObject>()
    ensures { AreLong K.enc V.enc }
{}

/// What a full object (1,048,576 pairs) would be with one more pair, or another value, has more
/// than 1,048,576 bytes. So no limit up to that many bytes lets a pair be put into a full object.
pub fn full_objects_grow_too_long<K: FarObject, V: FarObject>()
    ensures { GrowTooLong K.enc V.enc }
{}
