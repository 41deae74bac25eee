//! Accesses with their points, and which of two is ordered before the other (after MPI 3.1, section 11.7).
ghost use Rattle.std.specs.Prelude.{◌≡◌, ◌∷◌, []};
ghost use Rattle.std.specs.List.{list_any};
ghost use Rattle.rma_types.specs.declared.accesses.Id.{Id as IdValue};
ghost use Rattle.order_rules.specs.Ordered.{points_for, role_in};
ghost use Rattle.order_rules.specs.Roles.{role_of};
ghost use Rattle.vector_clocks.specs.Marks.{before_in};
ghost use Rattle.rma_rules.specs.Same.{role_by};
ghost use Rattle.first_points.specs.Alike.{judged_by, reaches};

use rma_rules::{Part, part_of};
use rma_types::{Access, Id, Items};
use vector_clocks::Clocks;

/// An access with its name, its done points and its visible points; or with some of them that stand for all.
#[derive(Debug, Drop)]
pub struct JudgedPoints {
    pub id: Id,
    pub access: Access,
    pub done: Items<Id>,
    pub visible: Items<Id>,
}

/// One of the points is before the item, or is it.
pub fn do_reach(clocks: &Clocks, points: &[Id], id: Id) -> bool
    ensures { result ≡ reaches (before_in clocks.now) points.now id }
{
    for point in points {
        if clocks.before(*point, id) {
            return true;
        }
    }
    false
}

/// The points of the first access one of which must be before the second, which is of this part (MPI 3.1, sections
/// 11.4, 11.5 and 11.7, in this project's profile). `own` has the name of the first alone.
pub fn points_towards<'a>(a: &'a JudgedPoints, own: &'a [Id], part: Part) -> &'a [Id]
    requires { own.now ≡ a.now.id ∷ [] }
    ensures { result.now ≡ points_for (judged_by a.now) (role_in (judged_by a.now)) (role_by part) }
{
    match (part_of(a.access.kind), part) {
        (Part::Update, Part::Update | Part::Read) => a.done.as_slice(),
        (Part::Update, Part::Store | Part::Load) => a.visible.as_slice(),
        (Part::Read, _) => a.done.as_slice(),
        (Part::Store, Part::Update | Part::Read) => a.visible.as_slice(),
        (Part::Store, Part::Store | Part::Load) => own,
        (Part::Load, _) => own,
    }
}
