//! Laws of maps and of lawful logs. Each is the contract of a function that does nothing.
ghost use Rattle.table_core.specs.Laws.{MapsRise, LastWriteStands, ContentsAreMap, ContentsAnswer, BucketsMakeMap};

use far_object::FarObject;

/// The keys of a history's map strictly rise.
pub fn maps_rise<K: FarObject, V: FarObject>()
    ensures { MapsRise K V K.enc V.enc }
{}

/// What the map of a history has at a key is what the last of the key's operations which wrote it left there.
pub fn last_write_stands<K: FarObject, V: FarObject>()
    ensures { LastWriteStands K V K.enc V.enc }
{}

/// In a lawful log of an honest device the contents of a bucket's word are the map of the history at that bucket.
pub fn contents_are_map<K: FarObject, V: FarObject>()
    ensures { ContentsAreMap K V K.enc V.enc }
{}

/// In a lawful log of an honest device the contents of a key's bucket give the key what the map of the history does.
pub fn contents_answer<K: FarObject, V: FarObject>()
    ensures { ContentsAnswer K V K.enc V.enc }
{}

/// The pairs of all buckets of a history's map, sorted by key, are the map.
pub fn buckets_make_map<K: FarObject, V: FarObject>()
    ensures { BucketsMakeMap K V K.enc V.enc }
{}
