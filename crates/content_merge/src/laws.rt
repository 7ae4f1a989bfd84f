//! What holds of merges whatever their drivers do. The functions do nothing: their contracts are the laws.

ghost use Rattle.std.specs.Prelude.{◌≡◌, List, [], Option, None};
ghost use Rattle.driver_pool.specs.declared.end.DriverEnd.{DriverEnd};
ghost use Rattle.seq_base.specs.PathMaps.{Entries, IsPathMap};
ghost use Rattle.seq_base.specs.Words.{Text};
ghost use Rattle.tree_merge.specs.Plans.{plan_of};
ghost use Rattle.tree_merge.specs.Results.{conflict_in, result_of};
ghost use Rattle.content_merge.specs.Merging.{merge_of};
ghost use Rattle.content_merge.specs.declared.merged.Merged.TheVariants.{Clean};

/// Where nothing conflicts, the merge with drivers is the map that `merged_map` of tree_merge answers, and makes no new blob.
#[tactic(auto, using(crate::proofs::Clean::merge_is_result))]
pub fn a_merge_without_conflicts_is_the_merged_map()
    ensures { (b o t : Entries) (ends : List (Option DriverEnd)) → IsPathMap b → IsPathMap o → IsPathMap t → conflict_in (plan_of b o t) ≡ None
        → merge_of b o t ends ≡ Clean (result_of b o t) [] }
{}

/// Whatever ends the drivers give, no path of a merged map lies below a path, and none is a folder.
#[tactic(auto, using(crate::proofs::Maps::clean_map))]
pub fn no_merged_path_lies_below_another()
    ensures { (b o t : Entries) (ends : List (Option DriverEnd)) (map : Entries) (texts : List Text) → IsPathMap b → IsPathMap o → IsPathMap t
        → merge_of b o t ends ≡ Clean map texts → IsPathMap map }
{}
