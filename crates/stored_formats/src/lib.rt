//! What a peer stores, as values and as bytes: the objects of its keys, and the facts that it saves.
//!
//! Objects: what a peer keeps of one key, and how it is spelled as bytes.
//!
//! [`Object::decode`] returns the object that the bytes spell, or the first fault from the left.
//! [`Object::encode`] and [`put_object`] write that spelling, and no object's spelling begins another's.
//! [`Object::matches`] tells whether an entry of the tree describes an object. A [`BoxedObject`] is an
//! object on the heap. The grammar is in `specs/Objects.antt`.
//!
//! Facts: what a peer saves of the ensemble, how facts are ordered, and how they are spelled as bytes.
//!
//! [`Fact::newer_than`] orders facts by epoch and number. [`Fact::next_views`] gives the views of the
//! epoch that follows. [`Fact::decode`] returns the fact that the bytes spell, or the first fault from
//! the left. [`Fact::encode`], [`Fact::spell`] and [`put_fact`] write that spelling, and no fact's
//! spelling begins another's. The definitions are in `specs/Facts.antt` and `specs/FactBytes.antt`.
#![tactic(auto)]

mod boxed;
mod fact;
mod fact_encoding;
mod fact_error;
mod fact_faults;
mod fact_laws;
mod object;
mod object_encoding;
mod object_error;
mod object_faults;
mod object_laws;
mod reading;
mod saved;

pub use boxed::{BoxedObject, box_object, copy_boxed};
pub use fact::{Change, Fact};
pub use fact_encoding::put_fact;
pub use fact_error::{FactError, FactRule};
pub use fact_faults::facts_fault_first;
pub use fact_laws::facts_stand_apart;
pub use object::{Object, copy_object};
pub use object_encoding::{put_object, take_object};
pub use object_error::{ObjectError, ObjectRule};
pub use object_faults::objects_fault_first;
pub use object_laws::objects_stand_apart;
pub use reading::take_fact;
pub use saved::{SavedFact, saved_facts_fault_first, saved_facts_stand_apart};
