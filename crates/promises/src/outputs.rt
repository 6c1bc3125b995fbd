// The output shares of a branch.
ghost use Rattle.std.specs.Prelude.{◌≡◌, ◌+◌, length};
ghost use Rattle.kinds.specs.Groups.{group_length};
ghost use Rattle.theory.specs.Algebra.{ops_of};
ghost use Rattle.theory.specs.Runs.{at_outputs};
ghost use Rattle.theory.specs.Groups.{group_bytes};

use branches::groups::put_element;
use branches::lock::OpenLock;
use branches::wires::Wires;
use kinds::kind::ElementKind;

// Writes them over the whole of `out`.
pub(crate) fn write_outputs<K: ElementKind>(
    lock: &OpenLock<'_, K>,
    wires: &Wires<'_, K>,
    out: &mut [u8],
)
    requires ends { length wires.now.rows ≡ lock.now.inputs + length lock.now.gates }
    requires sized { length out.old ≡ group_length K.kind (length lock.now.outputs) }
    ensures { out.new ≡ group_bytes K.kind (at_outputs (ops_of K.kind) lock.now.outputs wires.now.rows) }
{
    let count = lock.output_count();
    for (j, output) in lock.outputs().enumerate() {
        put_element(out, count, j, wires.wire(output.wire));
    }
}
