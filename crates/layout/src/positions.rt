// The positions of the nodes in an order.
ghost use Rattle.std.specs.Prelude.{◌≡◌, ◌≤◌, length};
ghost use Rattle.plan.specs.Lists.{written};
ghost use Rattle.plan.specs.Mesh.{max_nodes};
ghost use Rattle.plan.specs.Dissection.{positions as positions_of};
ghost use Rattle.theory.specs.Counting.{Order};

// Each node gets its position (document 01: place). O(n).
pub fn invert(order: &[u16], positions: &mut [u16])
    requires { Order (length order.now) order.now × (length order.now ≤ max_nodes) × (length order.now ≤ length positions.old) }
    ensures { positions.new ≡ written (positions_of (length order.now) order.now) positions.old }
{
    for (i, &v) in order.iter().enumerate() {
        positions[v as usize] = i as u16;
    }
}
