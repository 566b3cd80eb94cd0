//! Keys and values as bytes, and a bucket's pairs as one list of bytes.
//!
//! A type that implements `FarObject` says how its values are written, one after another with
//! nothing between them. An `Object` is the writing of a map: the count of its pairs, and then the
//! pairs in rising order of their keys' bytes. Its contracts see the list of the pairs, so what it
//! does is said of a map and not of bytes.
//!
//! There are two formats. The first is the object alone. The second puts the object's bucket and
//! name before it, so that bytes from a wrong place are told from the right ones.
#![tactic(auto)]

mod buffers;
mod fault;
mod format;
mod keys;
mod laws;
mod number;
mod object;
mod order;
mod text;
mod traits;

pub use buffers::Buffers;
pub use fault::{Memory, ObjectFault, TextFault};
pub use format::Format;
pub use keys::bucket_of;
pub use laws::{
    encodings_begin_no_other, equal_encodings_are_equal_values, equal_objects_are_equal_maps,
    equal_spellings_are_equal_maps, full_objects_grow_too_long,
    objects_are_longer_than_their_counts, spellings_are_misplaced_elsewhere,
    values_are_where_encodings_begin,
};
pub use object::{Entry, MOST_PAIRS, Object};
pub use order::order as compare_bytes;
pub use text::Text;
pub use traits::FarObject;
