ghost use Rattle.std.specs.Prelude.{◌≡◌, IfOk};

use crate::object::Object;
use ens_base::CopyError;
use std::alloc::{AllocError, Global};
use std::marker::Model;

/// An object on the heap, so that what may have one takes little room without it. Contracts see the
/// object.
#[derive(Debug, Drop)]
pub struct BoxedObject {
    object: Box<Object>,
}

impl Model for BoxedObject {
    ghost use Rattle.stored_formats.specs.declared.object.Object.{Object};

    ghost Value = { Object };

    ghost view = { λ b. b.object.value };
}

impl BoxedObject {
    /// Puts an object on the heap. Fails only when out of memory.
    pub fn new(alloc: Global, object: Object) -> Result<BoxedObject, AllocError>
        ensures { IfOk result (λ b. b ≡ object) }
    {
        Ok(BoxedObject {
            object: Box::new(alloc, object)?,
        })
    }

    /// Returns the object.
    pub fn get(&self) -> &Object
        ensures { result.now ≡ self.now }
    {
        &self.object
    }

    /// Takes the object off the heap.
    pub fn into_object(self) -> Object
        ensures { result ≡ self }
    {
        let BoxedObject { object } = self;
        Box::into_inner(object)
    }
}

/// Puts the object on the heap, if there is one. Fails only when out of memory.
pub fn box_object(alloc: Global, object: Option<Object>) -> Result<Option<BoxedObject>, AllocError>
    ensures { IfOk result (λ b. b ≡ object) }
{
    match object {
        None => Ok(None),
        Some(object) => Ok(Some(BoxedObject::new(alloc, object)?)),
    }
}

/// Returns a copy of the object, on the heap, if there is one. Fails only when out of memory.
pub fn copy_boxed(
    alloc: Global,
    object: &Option<BoxedObject>,
) -> Result<Option<BoxedObject>, CopyError>
    ensures { IfOk result (λ b. b ≡ object.now) }
{
    match object {
        None => Ok(None),
        Some(object) => Ok(Some(BoxedObject::new(alloc, object.get().copy(alloc)?)?)),
    }
}
