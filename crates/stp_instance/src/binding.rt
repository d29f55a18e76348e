//! Terms under a binding of variables to objects.

ghost use Rattle.std.specs.Prelude.{◌≡◌, map, IfOk};
ghost use Rattle.stp_instance.specs.Bindings.{numbers_of, object_of, objects_of};

use bumpalo::Bump;
use bumpalo::collections::into_bump_slice;
use stp_base::{Memory, ObjectId};
use stp_schema::Term;

/// The object that a term stands for. The variables have these objects, in their order.
pub fn object_under(binding: &[ObjectId], term: Term) -> ObjectId
    ensures { result.0 ≡ object_of (numbers_of binding.now) term }
{
    match term {
        Term::Variable(number) => match binding.get(number as usize) {
            Some(object) => *object,
            None => ObjectId(0),
        },
        Term::Object(object) => object,
    }
}

/// The objects that these terms stand for.
pub fn objects_under<'a>(
    arena: &'a Bump,
    binding: &[ObjectId],
    terms: &[Term],
) -> Result<&'a [ObjectId], Memory>
    ensures { IfOk result (λ r. numbers_of r.now ≡ objects_of (numbers_of binding.now) terms.now) }
{
    let mut objects = Vec::with_capacity(arena, terms.len())?;
    for term in terms {
        objects.push(object_under(binding, *term))?;
    }
    Ok(into_bump_slice(objects))
}
