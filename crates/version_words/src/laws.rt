//! Laws of lawful logs, which the crates above cite. Each is the contract of a function that does nothing.
ghost use Rattle.version_words.specs.Laws.{ContentsStay, SeenStay, ChangesFit, EmptyHolds, SeenAnswers, SameHistory};

use far_object::FarObject;

/// The contents of a name that was drawn stay.
pub fn contents_stay<K: FarObject, V: FarObject>()
    ensures { ContentsStay K V K.enc V.enc }
{}

/// The contents of a word that was seen stay.
pub fn seen_stay<K: FarObject, V: FarObject>()
    ensures { SeenStay K V K.enc V.enc }
{}

/// What a change makes of the contents of a word that was seen belongs into its bucket.
pub fn changes_fit<K: FarObject, V: FarObject>()
    ensures { ChangesFit K V K.enc V.enc }
{}

/// A word without an object has no contents.
pub fn empty_holds<K: FarObject, V: FarObject>()
    ensures { EmptyHolds K V K.enc V.enc }
{}

/// A call that was added behind a word that was seen is answered, at the new front, from that word's contents.
pub fn seen_answers<K: FarObject, V: FarObject>()
    ensures { SeenAnswers K V K.enc V.enc }
{}

/// Between two fronts at which `Words::gather` finds the same calls of all passes, the history stays. The log may grow there
/// by names and moves.
pub fn same_history<K: FarObject, V: FarObject>()
    ensures { SameHistory K V }
{}
