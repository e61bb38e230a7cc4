//! Laws. A law does nothing but hold, so a call returns.

#[test]
fn of_workers_and_commands(_: HostRuntime) {
    ar_workers::laws::lost_is_double_or_unmet();
    ar_command::laws::one_bundle();
    ar_command::laws::one_text();
    ar_command::laws::ordered_is_plain();
}

#[test]
fn of_libraries(_: HostRuntime) {
    ar_value::laws::merge_has_both();
    ar_value::laws::merge_with_itself();
    ar_value::laws::merge_either_way();
    ar_json::laws::what_is_read_fits();
    ar_json::laws::memory_is_no_fault();
    ar_limits::laws::at_most_one_metric_phase();
    ar_limits::laws::at_most_one_run_phase();
    ar_limits::laws::closed_for_a_reason();
    ar_limits::laws::metric_phase_stays();
    ar_limits::laws::run_phase_stays();
    ar_limits::laws::late_changes_nothing();
    ar_limits::laws::only_timely_matters();
    ar_limits::laws::closed_metrics_are_complete();
    ar_limits::laws::limits_before_count();
    ar_limits::laws::one_for_each_metric();
    ar_limits::laws::effects_in_order();
    ar_board::laws::each_number_once();
    ar_board::laws::histories_are_of_runs();
    ar_board::laws::ordered_histories_rise();
    ar_board::laws::parked_numbers_wait();
    ar_board::laws::lawful_at_rest();
    ar_bundle::laws::lawful_are_so_far();
    ar_board::laws::receipts_are_met_or_not();
}
