//! The laws of folds by key: of the rows of each key what they come to, by ascending key.
#![tactic(auto)]

pub mod laws;

#[cfg(test)]
mod tests {
    use crate::laws;

    #[test]
    fn each_law_holds_of_numbers_with_numbers_as_keys() {
        laws::fold_is_determined::<u64, u64>();
        laws::merges_gather::<u64, u64>();
        laws::folds_join::<u64, u64>();
        laws::ascending_rows_are_folded::<u64, u64>();
        laws::stable_sorting_keeps_the_fold::<u64, u64>();
        laws::folds_and_tests_of_keys_change_places::<u64, u64>();
        laws::folds_grow_by_one::<u64, u64>();
        laws::the_least_head_comes_next::<u64, u64>();
        laws::converted_folds_join::<u64, u64, u64>();
    }
}
