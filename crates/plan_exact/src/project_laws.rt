//! Laws of the trees of projects that proofs cite. The functions do nothing.

ghost use Rattle.plan_sgs.specs.Instances.{Planned};
ghost use Rattle.plan_exact.specs.ProjectTrees.{TreeHasProjectWords, ProjectTreesKeepLaws};
ghost use Rattle.plan_exact.specs.ProjectTrees.{FoundIsShortestProject};

/// The words of a project form a tree that satisfies the laws of trees, so a search of it skips no
/// better word.
pub fn projects_make_trees()
    ensures words { (i : Planned) → TreeHasProjectWords i }
    ensures laws { ProjectTreesKeepLaws }
{}

/// The first word of least makespan of a project's tree has no greater makespan than any feasible
/// schedule of the project.
pub fn found_is_shortest_project()
    ensures { FoundIsShortestProject }
{}
