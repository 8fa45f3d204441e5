//! What looks at a store and plans one write.
ghost use Rattle.std.specs.Prelude.{◌≡◌, ℕ, List, Option, IfOk, Some};
ghost use Rattle.version_store.specs.declared.write.Plan.{Plan};
ghost use Rattle.version_store.specs.State.{state};
ghost use Rattle.version_store.specs.Apply.{IsMakeable};

use crate::item::Item;
use crate::store::Store;
use crate::write::Plan;
use std::alloc::{AllocError, Global};

/// Plans writes from what stood when it looked. Its two meanings are functions of the state alone.
///
/// `fits` says at which states and moments it may look. `next` is the plan, or nothing, that is due to a name in a
/// state at a moment. A view means one answer, `means`, by what it holds.
pub trait Reconciler<O: Item>: Drop {
    /// What a look keeps of a state.
    type View: Drop;

    ghost fits: { Self → List O → ℕ → Type 0 };

    ghost next: { Self → List O → O.Name → ℕ → Option (Plan O O.Kind O.Key O.Name O.Actor) };

    ghost means: { Self.View → Option (Plan O O.Kind O.Key O.Name O.Actor) };

    /// Looks at the present state. The view means what is due to the name in it at that moment.
    fn look(
        &self,
        alloc: Global,
        store: &Store<O>,
        name: &O::Name,
        now: u64,
    ) -> Result<Self::View, AllocError>
        requires { fits self.now (state O.key O.Key.cmp store.now.entries) now }
        ensures { IfOk result (λ view. means view ≡ next self.now (state O.key O.Key.cmp store.now.entries) name.now now) };

    /// The answer that the view means, however much was written since.
    fn plan(&self, alloc: Global, view: &Self::View) -> Result<Option<Plan<O>>, AllocError>
        ensures { IfOk result (λ plan. plan ≡ means view.now) };

    /// What it plans can be applied.
    ghost makeable: { (r : Self) (st : List O) (name : O.Name) (now : ℕ) (plan : Plan O O.Kind O.Key O.Name O.Actor) → next r st name now ≡ Some plan → IsMakeable O.key plan };
}
