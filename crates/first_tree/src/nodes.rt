//! The nodes of a tree of minima, in a slice of `2 * size` numbers: the root is node 1, the children of node i are nodes 2i and
//! 2i + 1, and the last `size` nodes are the leaves. Each node above the leaves is the lesser of its children. Node 0 is unused.
ghost use Rattle.std.specs.Prelude.{◌≡◌, ◌+◌, ◌*◌, ◌≤◌, ◌<◌, length, drop, slice_index};
ghost use Rattle.first_tree.specs.Nodes.{IsTree, IsTreeExcept, IsPower, IsFirst, Covers, IsFirstFrom};

/// Computes the nodes from this one up to the root again.
pub fn repair_path(nodes: &mut [u64], size: usize, from: usize)
    requires length { length nodes.old ≡ size + size }
    requires from { from < size }
    requires others { IsTreeExcept nodes.old size from }
    ensures tree { IsTree nodes.new size }
    ensures leaves { drop size nodes.new ≡ drop size nodes.old }
    ensures length { length nodes.new ≡ length nodes.old }
{
    let mut at = from;
    while at > 0 {
        nodes[at] = nodes[2 * at].min(nodes[2 * at + 1]);
        at /= 2;
    }
}

/// Computes all nodes above the leaves, lowest first.
pub fn rebuild(nodes: &mut [u64], size: usize)
    requires length { length nodes.old ≡ size + size }
    ensures tree { IsTree nodes.new size }
    ensures leaves { drop size nodes.new ≡ drop size nodes.old }
    ensures length { length nodes.new ≡ length nodes.old }
{
    let mut at = size;
    while at > 1 {
        at -= 1;
        nodes[at] = nodes[2 * at].min(nodes[2 * at + 1]);
    }
}

/// The number of the first leaf that is at most the bound, in a tree with such a leaf.
pub fn first_leaf(nodes: &[u64], size: usize, bound: u64) -> usize
    requires length { length nodes.now ≡ size + size }
    requires tree { IsTree nodes.now size }
    requires power { IsPower size }
    requires some { slice_index nodes.now 1 ≤ bound }
    ensures { IsFirst nodes.now size bound result }
{
    // Node `at` covers the leaves from `first` on, `width` of them.
    let mut at: usize = 1;
    let mut first: usize = 0;
    let mut width = size;
    while at < size {
        width /= 2;
        at *= 2;
        if nodes[at] > bound {
            at += 1;
            first += width;
        }
    }
    first
}

/// The number of the first leaf that is at or after `from` and at most the bound, of those that node `at` covers: `width` leaves from
/// `first` on. It goes down once to the leaf `from`, and once to the leaf that it finds.
pub fn first_from(
    nodes: &[u64],
    size: usize,
    at: usize,
    first: usize,
    width: usize,
    from: usize,
    bound: u64,
) -> Option<usize>
    requires length { length nodes.now ≡ size + size }
    requires tree { IsTree nodes.now size }
    requires covers { Covers size at first width }
    ensures { IsFirstFrom nodes.now size bound first from (first + width) result }
{
    if first + width <= from {
        return None;
    }
    let least = nodes[at];
    if least > bound {
        return None;
    }
    if at >= size {
        return Some(first);
    }
    let half = width / 2;
    match first_from(nodes, size, 2 * at, first, half, from, bound) {
        Some(leaf) => Some(leaf),
        None => first_from(nodes, size, 2 * at + 1, first + half, half, from, bound),
    }
}
