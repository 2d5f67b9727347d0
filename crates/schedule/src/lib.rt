// The theory of fixed-priority scheduling on one processor. Each function names a theorem of specs/ in its contract, so that a check asks for its proof; it does nothing else.
#![tactic(auto)]

mod examples;
mod necessary;
mod orders;
mod published;
mod removal;
mod sufficient;

pub use examples::{either_order_is_lawful, empty_fits_each, one_fits_one_does_not};
pub use necessary::{
    synchronous_is_all_multiples, synchronous_is_lawful, synchronous_misses, unfit_can_miss,
    unfit_front_can_miss,
};
pub use orders::{
    fits_exactly_when_safe, fits_or_not, joined_keeps_order, permutations_count_the_same,
    priority_order_is_best, priority_order_is_optimal, unfit_exactly_when_can_miss,
    unfit_exactly_when_no_order,
};
pub use published::{
    demand_is_total_work, one_task, points_are_published, points_suffice, up_is_the_ceiling,
    whole_list,
};
pub use removal::{good_instants_stay, removal_fits};
pub use sufficient::{
    done_by, fitting_list_is_safe, fitting_place_is_safe, idle_from, runs_follow_traces,
    runs_meet_traces, waits_less,
};
