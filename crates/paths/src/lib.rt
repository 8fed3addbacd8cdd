// The theory under the store: labels that are joins over all paths, edits and their reports, ranks, explanations.
// Each function below is a group of theorems: its contract names them, and its body does nothing.
#![tactic(auto)]

ghost use Rattle.std.specs.Prelude.{ℕ, Bool, nat_eq, nat_lt};
ghost use Rattle.paths.specs.Examples.{latest, FootOfDiamond, SixPlaces};
ghost use Rattle.paths.specs.Kind.{Kind, Laws, FreeLaws};
ghost use Rattle.paths.specs.LatestLaws.{latest_laws, latest_freeing, latest_telling};
ghost use Rattle.paths.specs.Reports.{Tells};
ghost use Rattle.paths.specs.Theorems.{BalancedIsJoin, JoinIsBalanced, JoinIsUnique, JoinExists, JoinDepends, FreeByPaths};
ghost use Rattle.paths.specs.Theorems.{FirstLedger, CallsChange, CallsEdit, CallsKeepJoins, CallsKeepLinks};
ghost use Rattle.paths.specs.Theorems.{RecomputingSuffices, ChangedIsReported, ChangedAreCounted, AnswerExists, AnswerIsOne, AgreementSuffices, WalkRecomputes, GatheredByLink};
ghost use Rattle.paths.specs.Theorems.{WalkFindsPaths, FirstRanks, RanksPermute, MovedIsRanked, MovedByTheRule, LinkKeepsRising, CircleIsPathBack};
ghost use Rattle.paths.specs.Theorems.{KeptHasACause, Explained};

// A lawful label kind, as far as the theorems see it.
pub trait Label {
    type Passage;

    ghost kind: { Kind Self Self.Passage };

    ghost free: { ℕ → Self → Bool };

    ghost same: { Self → Self → Bool };

    ghost lawful: { Laws kind };

    ghost freeing: { FreeLaws kind free };

    ghost telling: { Tells same };
}

// The smallest kind with passages shows that the laws can be met: a label is a day or 0.
impl Label for u32 {
    type Passage = u32;

    ghost kind = { latest };

    ghost free = { λ d x. nat_lt x d };

    ghost same = { nat_eq };

    ghost lawful = { latest_laws };

    ghost freeing = { latest_freeing };

    ghost telling = { latest_telling };
}

// The label of a place is the join over all paths into it: there is one, and the equations that tie neighbouring places give it.
pub fn joins_stand<L: Label>()
    ensures balanced { BalancedIsJoin L.kind }
    ensures balances { JoinIsBalanced L.kind }
    ensures unique { JoinIsUnique L.kind }
    ensures exists { JoinExists L.kind }
    ensures depends { JoinDepends L.kind }
{}

// A label is free when no path keeps its place, and a path explains why a place is kept.
pub fn freeness_stands<L: Label>()
    ensures paths { FreeByPaths L.kind L.free }
    ensures cause { KeptHasACause L.kind L.free }
    ensures explained { Explained L.kind L.free }
{}

// The ledger at first, what accepted calls do to it, and what they leave.
pub fn calls_stand<L: Label>()
    ensures first { FirstLedger L.kind }
    ensures change { CallsChange L.kind }
    ensures edit { CallsEdit L.kind }
    ensures joins { CallsKeepJoins L.kind }
    ensures links { CallsKeepLinks L.kind }
{}

// What an edit must recompute, report and count.
pub fn edits_stand<L: Label>()
    ensures suffices { RecomputingSuffices L.kind }
    ensures reported { ChangedIsReported L.kind }
    ensures counted { ChangedAreCounted L.kind L.same }
    ensures exists { AnswerExists L.kind }
    ensures one { AnswerIsOne L.kind }
    ensures agreement { AgreementSuffices L.kind }
{}

// How one walk up the ranks does that.
pub fn walk_stands<L: Label>()
    ensures recomputes { WalkRecomputes L.kind }
    ensures gathers { GatheredByLink L.kind }
{}

// The order of the ranks, and the rule that moves it.
pub fn order_stands()
    ensures first { FirstRanks }
    ensures permute { RanksPermute }
    ensures ranked { MovedIsRanked }
    ensures rule { MovedByTheRule }
{}

// A walk up the ranks finds what paths reach.
pub fn search_stands<P>()
    ensures { WalkFindsPaths P }
{}

// A new link closes a circle, or the links still rise: in the ranks as they are, or in the moved ones.
pub fn links_stand<L: Label>()
    ensures rising { LinkKeepsRising L.kind }
    ensures circle { CircleIsPathBack L.kind }
{}

// Two worked examples: a diamond of links, and a link that moves ranks.
pub fn examples_stand()
    ensures diamond { FootOfDiamond }
    ensures six { SixPlaces }
{}
