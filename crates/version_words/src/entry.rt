//! What the log of a row has.
ghost use Rattle.std.specs.Prelude.{Bool, List};
ghost use base.Stored.{coded_bool, coded_list};

use std::marker::{Model, PhantomData};
use table_core::{Event, Limits};

/// The first entry says what the row was opened with, and each later one is an event. No value of it is made: entries
/// stand in the log alone, which proofs know and no running code stores.
pub enum Entry<K, V> {
    Opened(Limits),
    Happened(Event<K, V>),
}

/// What a step answers to who asked for it: whether the event was added, and the log after the step. It has no bytes.
pub struct Answer<E> {
    marker: PhantomData<E>,
    pub ghost done: { Bool } by { coded_bool },
    pub ghost log: { List E } by { coded_list E.code },
}

impl<E> Model for Answer<E> {
    ghost use base.Fml.{ftrue};

    ghost also_owns = { λ a. ftrue };
}
