//! The tests of guards, as contracts alone see them.

ghost use Rattle.std.specs.Prelude.{◌≡◌, IfOk};
ghost use Rattle.std.specs.Arc.{arc_value};

use spin_code::{Guards, Test};
use spin_objects::Catalogue;
use spin_values::{NoMemory, Sequence};
use std::alloc::Global;
use std::marker::Model;
use std::snapshot::Snapshot;
use std::sync::Arc;

// The tests of a catalogue's guards in the order of their numbers, as they stood. They say over which tests a version's
// plans were compiled.
//
// Nothing is copied: an element has no bytes, and stands for a test in contracts alone.
#[derive(Drop)]
pub(crate) struct Tests {
    seen: Sequence<Snapshot<Test>>,
}

impl Model for Tests {
    ghost use Rattle.std.specs.Prelude.{List, map};
    ghost use Rattle.std.specs.Coded.{codes};
    ghost use Rattle.spin_code.specs.contracts.test.Test as test;
    ghost use Rattle.spin_code.specs.declared.test.Test.{Test};

    ghost Value = { List Test };

    ghost coded = { Prim.hlevel (codes, test.the_row.coded) };

    ghost view = { λ t. map (λ s. s.value) t.seen };
}

impl Tests {
    ghost use Rattle.spin_objects.specs.Units.{tests_of};

    // The tests of these guards.
    pub(crate) fn of(alloc: Global, catalogue: &Catalogue) -> Result<Tests, NoMemory>
        ensures { IfOk result (λ tests. tests ≡ tests_of catalogue.now) }
    {
        let mut seen = Sequence::new(alloc);
        for before in 0..catalogue.count() {
            seen.push(Snapshot::of(catalogue.test_of(before + 1)))?;
        }
        Ok(Tests { seen })
    }
}

// One more owner of the tests.
pub(crate) fn share_tests(tests: &Arc<Tests>) -> Result<Arc<Tests>, NoMemory>
    ensures { IfOk result (λ shared. arc_value shared ≡ arc_value tests.now) }
{
    Ok(Arc::try_clone(tests)?)
}
