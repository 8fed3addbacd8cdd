// What holds of every kind that keeps the laws.
ghost use Rattle.paths.specs.Theorems.{BalancedIsJoin, JoinIsUnique, FreeByPaths};

use super::kind::LabelKind;

// Labels that are balanced over rising links are the joins over all paths, there is no other join, and a join is free exactly
// when what each path contributes is: for the values of any kind.
pub fn labels_stand<K: LabelKind>()
    ensures balanced { BalancedIsJoin K.means.kind }
    ensures unique { JoinIsUnique K.means.kind }
    ensures free { FreeByPaths K.means.kind K.means.free }
{}
